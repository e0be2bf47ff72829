// Founding: the outline is stored, and district 0 is made with the same ring.
ghost use Rattle.std.specs.Prelude.{◌≡◌, ◌/◌, ◌%◌, ◌≤◌, length};
ghost use Rattle.ring.specs.Grid.{vertices};
ghost use Rattle.refusals.specs.Verdicts.{verdict, verdict_of};
ghost use Rattle.register.specs.Founding.{found_tests};
ghost use Rattle.register.specs.Calls.{placed, Wrote, FoundBy};
ghost use Rattle.districts.specs.Lent.{formed, means};
ghost use Rattle.districts.specs.Held.{lists_of, founding_of, SameFounding};

use districts::{FIRST_PLACES, Lists, ListsToFound, SIZES};
use refusals::Refusal;
use room::Run;

// Whether founding with this ring is refused, and why, where it is known whether the register is well-formed.
fn judged(good: bool, lists: &Lists, ring: &[i32]) -> Result<(), Refusal>
    requires { good ≡ formed (lists_of lists.now) }
    ensures { verdict_of result ≡ verdict (found_tests (formed (lists_of lists.now)) (means (lists_of lists.now)) ring.now) }
{
    let store = lists.known(good)?;
    if 0 < store.runs.outline_size() {
        return Err(Refusal::OutlineThere);
    }
    if ring::no_ring(ring.len()) {
        return Err(Refusal::NoRing);
    }
    if ring::some_beyond(ring) {
        return Err(Refusal::BeyondGrid);
    }
    Ok(())
}

// The outline and district 0 have n vertices each, district 0 from the first place of the store on.
fn place(runs: &mut [u32], n: usize)
    requires runs_len { length runs.old ≡ 129 }
    requires n_bound { n ≤ 2048 }
    ensures { runs.new ≡ placed runs.old n }
{
    runs[0] = n as u32;
    runs[FIRST_PLACES] = 0;
    runs[SIZES] = n as u32;
}

fn write(lists: &mut ListsToFound, ring: &[i32])
    requires columns_len { (length lists.old.ox.now ≡ 2048) × (length lists.old.oy.now ≡ 2048) × (length lists.old.sx.now ≡ 2048) × (length lists.old.sy.now ≡ 2048) }
    requires runs_len { length lists.old.runs.now ≡ 129 }
    requires ring_len { (length ring.now % 2 ≡ 0) × (length ring.now / 2 ≤ 2048) }
    ensures lent { SameFounding lists.old lists.new }
    ensures columns_len { (length lists.new.ox.now ≡ 2048) × (length lists.new.oy.now ≡ 2048) × (length lists.new.sx.now ≡ 2048) × (length lists.new.sy.now ≡ 2048) }
    ensures wrote { Wrote (vertices ring.now) (founding_of lists.old) (founding_of lists.new) }
{
    let n = ring.len() / 2;
    let whole = Run {
        ring,
        from: 0,
        many: n,
    };
    room::write(lists.ox, lists.oy, 0, &whole);
    room::write(lists.sx, lists.sy, 0, &whole);
    place(lists.runs, n);
}

// Gives an empty register its outline, and makes district 0 of the same ring; where it is known whether the register is well-formed.
pub fn found_known(good: bool, lists: &mut ListsToFound, ring: &[i32]) -> Result<(), Refusal>
    requires { good ≡ formed (founding_of lists.old) }
    ensures lent { SameFounding lists.old lists.new }
    ensures found { FoundBy result ring.now (founding_of lists.old) (founding_of lists.new) }
{
    judged(good, &lists.read(), ring)?;
    write(lists, ring);
    Ok(())
}

// Gives an empty register its outline, and makes district 0 of the same ring.
pub fn found(lists: &mut ListsToFound, ring: &[i32]) -> Result<(), Refusal>
    ensures lent { SameFounding lists.old lists.new }
    ensures found { FoundBy result ring.now (founding_of lists.old) (founding_of lists.new) }
{
    let good = districts::well_formed(&lists.read());
    found_known(good, lists, ring)
}
