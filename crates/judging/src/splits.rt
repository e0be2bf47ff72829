// Whether a split is refused, and why: the rules' tests in its order, each asked once the earlier ones have passed.
ghost use Rattle.std.specs.Prelude.{◌≡◌, ◌<◌, ◌≤◌};
ghost use Rattle.districts.specs.Lent.{formed, means};
ghost use Rattle.districts.specs.Held.{lists_of};
ghost use Rattle.refusals.specs.Verdicts.{verdict};
ghost use Rattle.room.specs.Runs.{steps as steps_of};
ghost use Rattle.judging.specs.Splitting.{split_tests, lowest_unused as lowest_unused_of};
ghost use Rattle.judging.specs.Judging.{lowest_free, Frees, Judged, district_tests};

use crate::Cut;
use districts::{Lists, NUMBERS, Runs, Store};
use refusals::Refusal;
use ring::{FEWEST_VERTICES, MOST_VERTICES};

// The two vertices at which a split begins and ends: both pieces have them.
const ENDS: usize = 2;

pub fn lowest_unused(runs: &Runs) -> Option<usize>
    ensures { Frees result (lowest_free runs.now.list.now) }
{
    (0..NUMBERS).find(|d| runs.size(*d) == 0)
}

// How many edges lead from vertex i forward to vertex j, of a ring of n.
pub fn steps(n: usize, i: usize, j: usize) -> usize
    requires n_bound { n ≤ 2048 }
    requires i_lt_n { i < n }
    requires j_lt_n { j < n }
    ensures { (result ≡ steps_of n i j) × (result < n) }
{
    if i <= j { j - i } else { j + n - i }
}

// Refusals 6, 8, 4, 5, 9, 11 and 12, or the number of the new district.
#[tactic(auto, using(crate::proofs::Free::few_vertices), unfolding(refusals::specs::Verdicts::verdict))]
fn judged(store: &Store, cut: Cut, path: &[i32]) -> Result<usize, Refusal>
    ensures { Judged result (verdict (district_tests store.now.runs.list.now cut.d cut.i cut.j path.now)) (lowest_free store.now.runs.list.now) }
{
    if NUMBERS <= cut.d {
        return Err(Refusal::BadNumber);
    }
    let n = store.runs.size(cut.d);
    if n == 0 {
        return Err(Refusal::BadNumber);
    }
    if ((n <= cut.i) | (n <= cut.j)) | (cut.i == cut.j) {
        return Err(Refusal::BadIndex);
    }
    if path.len() % 2 == 1 {
        return Err(Refusal::NoRing);
    }
    if ring::some_beyond(path) {
        return Err(Refusal::BeyondGrid);
    }
    let k = path.len() / 2;
    let one = 1 + steps(n, cut.i, cut.j) + k;
    let two = 1 + steps(n, cut.j, cut.i) + k;
    if (one < FEWEST_VERTICES) | (two < FEWEST_VERTICES) {
        return Err(Refusal::TooFew);
    }
    let Some(free) = lowest_unused(&store.runs) else {
        return Err(Refusal::NumbersInUse);
    };
    if MOST_VERTICES < store.runs.total() + ENDS + path.len() {
        return Err(Refusal::NoRoom);
    }
    Ok(free)
}

// Whether the split is refused, and why, where it is known whether the register is well-formed; otherwise the number of the new district.
pub fn split(good: bool, lists: &Lists, cut: Cut, path: &[i32]) -> Result<usize, Refusal>
    requires { good ≡ formed (lists_of lists.now) }
    ensures { Judged result (verdict (split_tests (formed (lists_of lists.now)) (means (lists_of lists.now)) cut.d cut.i cut.j path.now)) (lowest_unused_of (means (lists_of lists.now))) }
{
    let store = lists.begun(good)?;
    judged(&store, cut, path)
}
