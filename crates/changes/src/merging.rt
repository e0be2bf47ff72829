// Merging two districts along a border: both runs leave the store, and the result is written behind all rings.
ghost use Rattle.std.specs.Prelude.{◌≡◌, ◌/◌, ◌%◌, ◌<◌, ◌≤◌, length};
ghost use Rattle.ring.specs.Grid.{vertices};
ghost use Rattle.districts.specs.Lists.{first_place, size as size_of, part};
ghost use Rattle.districts.specs.Lent.{formed};
ghost use Rattle.districts.specs.Held.{changing_of, SameChanging};
ghost use Rattle.room.specs.Room.{store_of, SameStore};
ghost use Rattle.judging.specs.Merging.{merged};
ghost use Rattle.changes.specs.Performing.{Pair, Joined};
ghost use Rattle.changes.specs.Calls.{MergeBy};

use districts::ListsToChange;
use judging::Seam;
use refusals::Refusal;
use room::{RING_NUMBERS, Run, StoreMut};

// Both districts leave, then the kept number takes the result of the rings they had.
fn join(store: &mut StoreMut, seam: Seam, ring: &[i32], other: &[i32])
    requires pair { Pair store.old.runs.now seam.kept seam.gone }
    requires ring_len { (length ring.now % 2 ≡ 0) × (size_of store.old.runs.now seam.kept ≡ length ring.now / 2) × (seam.a < length ring.now / 2) }
    requires other_len { (length other.now % 2 ≡ 0) × (size_of store.old.runs.now seam.gone ≡ length other.now / 2) × (seam.b < length other.now / 2) }
    requires edges { (1 ≤ seam.k) × (seam.k < length ring.now / 2) × (seam.k < length other.now / 2) }
    ensures lent { SameStore store.old store.new }
    ensures joined { Joined (store_of store.old) store.old.runs.now seam.kept seam.gone (merged (vertices ring.now) seam.a (vertices other.now) seam.b seam.k) (store_of store.new) store.new.runs.now }
{
    let n = ring.len() / 2;
    let m = other.len() / 2;
    let k = seam.k;
    let first = Run {
        ring,
        from: room::around(seam.a + k, n),
        many: n - k + 1,
    };
    let rest = Run {
        ring: other,
        from: seam.b + 1,
        many: m - k - 1,
    };
    store.remove(seam.kept);
    store.remove(seam.gone);
    store.add(seam.kept, &first, &rest);
}

// The rings are copied before their room is closed.
fn perform(store: &mut StoreMut, seam: Seam)
    requires pair { Pair store.old.runs.now seam.kept seam.gone }
    requires ends { (seam.a < size_of store.old.runs.now seam.kept) × (seam.b < size_of store.old.runs.now seam.gone) }
    requires edges { (1 ≤ seam.k) × (seam.k < size_of store.old.runs.now seam.kept) × (seam.k < size_of store.old.runs.now seam.gone) }
    ensures lent { SameStore store.old store.new }
    ensures joined { let P = part (store_of store.old) (first_place store.old.runs.now seam.kept) (size_of store.old.runs.now seam.kept) in
        let Q = part (store_of store.old) (first_place store.old.runs.now seam.gone) (size_of store.old.runs.now seam.gone) in
        Joined (store_of store.old) store.old.runs.now seam.kept seam.gone (merged P seam.a Q seam.b seam.k) (store_of store.new) store.new.runs.now }
{
    let mut numbers = [0; RING_NUMBERS];
    let mut others = [0; RING_NUMBERS];
    let ring = room::ring_of(store, seam.kept, &mut numbers);
    let other = room::ring_of(store, seam.gone, &mut others);
    join(store, seam, ring, other);
}

// Merges two districts along a seam; answers the kept number. It is known whether the register is well-formed.
pub fn merge_known(good: bool, lists: &mut ListsToChange, seam: Seam) -> Result<usize, Refusal>
    requires { good ≡ formed (changing_of lists.old) }
    ensures lent { SameChanging lists.old lists.new }
    ensures merged { MergeBy result seam.kept seam.a seam.gone seam.b seam.k (changing_of lists.old) (changing_of lists.new) }
{
    judging::merge(good, &lists.read(), seam)?;
    let mut store = StoreMut {
        sx: &mut *lists.sx,
        sy: &mut *lists.sy,
        runs: &mut *lists.runs,
    };
    perform(&mut store, seam);
    Ok(seam.kept)
}

// Merges two districts along a seam; answers the kept number.
pub fn merge(lists: &mut ListsToChange, seam: Seam) -> Result<usize, Refusal>
    ensures lent { SameChanging lists.old lists.new }
    ensures merged { MergeBy result seam.kept seam.a seam.gone seam.b seam.k (changing_of lists.old) (changing_of lists.new) }
{
    let good = districts::well_formed(&lists.read());
    merge_known(good, lists, seam)
}
