// Whether a merge is refused, and why: above all whether the two rings match along the border.
ghost use Rattle.std.specs.Prelude.{◌≡◌, ◌+◌, ◌-◌, ◌<◌, length};
ghost use Rattle.ring.specs.Held.{points_of};
ghost use Rattle.ring.specs.Rings.{at};
ghost use Rattle.ring.specs.Segment.{same as same_point};
ghost use Rattle.refusals.specs.Verdicts.{verdict, verdict_of};
ghost use Rattle.districts.specs.Held.{lists_of, district_of, Holds};
ghost use Rattle.districts.specs.Lent.{formed, means};
ghost use Rattle.judging.specs.Merging.{matches as match_all, merge_tests};
ghost use Rattle.judging.specs.Judging.{border_tests, pair_tests};

use crate::Seam;
use districts::{Lists, NUMBERS, Store};
use refusals::Refusal;
use ring::{Columns, Ring};

// Whether vertex a + t of one ring is vertex b - t of the other.
#[tactic(auto, using(crate::proofs::Matched::few_points))]
fn meets(one: &Columns, a: usize, two: &Columns, b: usize, t: usize) -> bool
    requires one { (a < length (points_of one.now)) × (t < length (points_of one.now)) }
    requires two { (b < length (points_of two.now)) × (t < length (points_of two.now)) }
    ensures { result ≡ same_point (at (points_of one.now) (a + t)) (at (points_of two.now) (b + length (points_of two.now) - t)) }
{
    let n = one.len();
    let m = two.len();
    two.vertex(room::around(b + m - t, m)) == one.vertex(room::around(a + t, n))
}

// Whether the rings match along k edges: in all k + 1 points, the one going forward and the other backward.
#[tactic(auto, using(crate::proofs::Matched::few_points))]
fn matches(one: &Columns, a: usize, two: &Columns, b: usize, k: usize) -> bool
    requires one { (a < length (points_of one.now)) × (k < length (points_of one.now)) }
    requires two { (b < length (points_of two.now)) × (k < length (points_of two.now)) }
    ensures { result ≡ match_all (points_of one.now) a (points_of two.now) b k }
{
    (0..k + 1).all(|t| meets(one, a, two, b, t))
}

// Refusals 8, 10 and 9.
#[tactic(auto, using(crate::proofs::Matched::few_points, crate::proofs::Matched::merged_long), unfolding(refusals::specs::Verdicts::verdict))]
fn judge_border(one: &Columns, two: &Columns, seam: Seam) -> Result<(), Refusal>
    ensures { verdict_of result ≡ verdict (border_tests (points_of one.now) seam.a (points_of two.now) seam.b seam.k) }
{
    let n = one.len();
    let m = two.len();
    let k = seam.k;
    if (n <= seam.a) | (m <= seam.b) {
        return Err(Refusal::BadIndex);
    }
    if (k == 0) | ((n <= k) | (m <= k)) {
        return Err(Refusal::NoMatch);
    }
    if !matches(one, seam.a, two, seam.b, k) {
        return Err(Refusal::NoMatch);
    }
    if n - k + (m - k) < ring::FEWEST_VERTICES {
        return Err(Refusal::TooFew);
    }
    Ok(())
}

// The ring of a number, if it is used; those above 63 are not.
fn ring_of<'a>(store: &Store<'a>, d: usize) -> Option<Columns<'a>>
    ensures { Holds result (district_of store.now d) }
{
    if d < NUMBERS {
        return store.ring(d);
    }
    None
}

// Refusals 6 and 7, then those, of the rings of the two districts.
#[tactic(auto, unfolding(refusals::specs::Verdicts::verdict))]
fn judge_pair(store: &Store, seam: Seam) -> Result<(), Refusal>
    ensures { verdict_of result ≡ verdict (pair_tests (district_of store.now seam.kept) (district_of store.now seam.gone) seam.kept seam.a seam.gone seam.b seam.k) }
{
    let Some(one) = ring_of(store, seam.kept) else {
        return Err(Refusal::BadNumber);
    };
    let Some(two) = ring_of(store, seam.gone) else {
        return Err(Refusal::BadNumber);
    };
    if seam.kept == seam.gone {
        return Err(Refusal::SameDistrict);
    }
    judge_border(&one, &two, seam)
}

// Whether the merge is refused, and why, where it is known whether the register is well-formed.
pub fn merge(good: bool, lists: &Lists, seam: Seam) -> Result<(), Refusal>
    requires { good ≡ formed (lists_of lists.now) }
    ensures { verdict_of result ≡ verdict (merge_tests (formed (lists_of lists.now)) (means (lists_of lists.now)) seam.kept seam.a seam.gone seam.b seam.k) }
{
    let store = lists.begun(good)?;
    judge_pair(&store, seam)
}
