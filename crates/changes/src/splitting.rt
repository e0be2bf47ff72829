// Splitting a district: its run leaves the store, and the two pieces are written from the first free place on.
ghost use Rattle.std.specs.Prelude.{◌≡◌, ◌+◌, ◌/◌, ◌%◌, ◌<◌, ◌≤◌, length};
ghost use Rattle.ring.specs.Grid.{vertices};
ghost use Rattle.districts.specs.Lists.{first_place, size as size_of, part};
ghost use Rattle.districts.specs.WellFormed.{total as total_of};
ghost use Rattle.districts.specs.Lent.{formed};
ghost use Rattle.districts.specs.Held.{changing_of, SameChanging};
ghost use Rattle.room.specs.Room.{store_of, SameStore};
ghost use Rattle.judging.specs.Splitting.{piece_one, piece_two};
ghost use Rattle.changes.specs.Performing.{Divided};
ghost use Rattle.changes.specs.Calls.{SplitBy};

use districts::ListsToChange;
use judging::Cut;
use refusals::Refusal;
use room::{Back, RING_NUMBERS, Run, StoreMut};

// The district leaves, then takes piece one of the ring it had; number e takes piece two.
fn divide(store: &mut StoreMut, cut: Cut, e: usize, ring: &[i32], path: &[i32])
    requires numbers { (cut.d < 64) × (e < 64) }
    requires ring_len { (length ring.now % 2 ≡ 0) × (size_of store.old.runs.now cut.d ≡ length ring.now / 2) × (first_place store.old.runs.now cut.d + length ring.now / 2 ≤ total_of store.old.runs.now) }
    requires ends { (cut.i < length ring.now / 2) × (cut.j < length ring.now / 2) × (cut.i ≡ cut.j → ⊥) }
    requires path_len { length path.now % 2 ≡ 0 }
    requires room { total_of store.old.runs.now + 2 + length path.now ≤ 2048 }
    ensures lent { SameStore store.old store.new }
    ensures divided { Divided (store_of store.old) store.old.runs.now cut.d e (piece_one (vertices ring.now) cut.i cut.j (vertices path.now)) (piece_two (vertices ring.now) cut.i cut.j (vertices path.now)) (store_of store.new) store.new.runs.now }
{
    let n = ring.len() / 2;
    let one = Run {
        ring,
        from: cut.i,
        many: 1 + judging::steps(n, cut.i, cut.j),
    };
    let two = Run {
        ring,
        from: cut.j,
        many: 1 + judging::steps(n, cut.j, cut.i),
    };
    let way = Run {
        ring: path,
        from: 0,
        many: path.len() / 2,
    };
    store.remove(cut.d);
    store.add(cut.d, &one, &Back { path });
    store.add(e, &two, &way);
}

// The district's ring is copied before its room is closed.
fn perform(store: &mut StoreMut, cut: Cut, e: usize, path: &[i32])
    requires numbers { (cut.d < 64) × (e < 64) }
    requires inside { first_place store.old.runs.now cut.d + size_of store.old.runs.now cut.d ≤ total_of store.old.runs.now }
    requires ends { (cut.i < size_of store.old.runs.now cut.d) × (cut.j < size_of store.old.runs.now cut.d) × (cut.i ≡ cut.j → ⊥) }
    requires path_len { length path.now % 2 ≡ 0 }
    requires room { total_of store.old.runs.now + 2 + length path.now ≤ 2048 }
    ensures lent { SameStore store.old store.new }
    ensures divided { let P = part (store_of store.old) (first_place store.old.runs.now cut.d) (size_of store.old.runs.now cut.d) in
        Divided (store_of store.old) store.old.runs.now cut.d e (piece_one P cut.i cut.j (vertices path.now)) (piece_two P cut.i cut.j (vertices path.now)) (store_of store.new) store.new.runs.now }
{
    let mut numbers = [0; RING_NUMBERS];
    let ring = room::ring_of(store, cut.d, &mut numbers);
    divide(store, cut, e, ring, path);
}

// Splits a district along a path; answers the number of the new district. It is known whether the register is well-formed.
pub fn split_known(
    good: bool,
    lists: &mut ListsToChange,
    cut: Cut,
    path: &[i32],
) -> Result<usize, Refusal>
    requires { good ≡ formed (changing_of lists.old) }
    ensures lent { SameChanging lists.old lists.new }
    ensures split { SplitBy result cut.d cut.i cut.j path.now (changing_of lists.old) (changing_of lists.new) }
{
    let e = judging::split(good, &lists.read(), cut, path)?;
    let mut store = StoreMut {
        sx: &mut *lists.sx,
        sy: &mut *lists.sy,
        runs: &mut *lists.runs,
    };
    perform(&mut store, cut, e, path);
    Ok(e)
}

// Splits a district along a path; answers the number of the new district.
pub fn split(lists: &mut ListsToChange, cut: Cut, path: &[i32]) -> Result<usize, Refusal>
    ensures lent { SameChanging lists.old lists.new }
    ensures split { SplitBy result cut.d cut.i cut.j path.now (changing_of lists.old) (changing_of lists.new) }
{
    let good = districts::well_formed(&lists.read());
    split_known(good, lists, cut, path)
}
