// Sorting a report by an index: only the districts are asked that it lists for the report's column and for its row, the lowest first.
ghost use Rattle.std.specs.Prelude.{◌≡◌, true, List, ◌<◌};
ghost use Rattle.std.specs.Int.Bits.{bit_and};
ghost use Rattle.ring.specs.Columns.{points};
ghost use Rattle.ring.specs.declared.Point.{Point};
ghost use Rattle.ring.specs.Walk.{OnGrid};
ghost use Rattle.index.specs.Axis.{OnAxis, listed};
ghost use Rattle.index.specs.Both.{Indexed};
ghost use Rattle.districts.specs.Answers.{belongs, report, answer_of};
ghost use Rattle.districts.specs.Held.{district_of};
ghost use Rattle.districts.specs.Lists.{meaning};
ghost use Rattle.refusals.specs.Verdicts.{verdict};
ghost use Rattle.register.specs.Placing.{assigned_at};
ghost use Rattle.register.specs.Sorting.{lies_to, sorted_by, point_tests, given};
ghost use Rattle.register.specs.Standing.{Stands};

use crate::Position;
use crate::placing::spot_of;
use crate::seen::Seen;
use crate::sorting::on_grid;
use crate::standing::{Stance, lying};
use districts::{Class, Report, Store};
use index::Index;
use refusals::Refusal;
use ring::Point;

// How r lies to district d. Not by `sorting::lies`: that is set into the loop of a single report as long as nobody else calls it.
fn lies_near(store: &Store, index: &Index, d: usize, r: Point) -> Stance
    requires indexed { Indexed store.now.sx.now store.now.sy.now store.now.runs.list.now index.now }
    requires d_bound { d < 64 }
    requires on_grid { OnGrid r }
    ensures { Stands result (lies_to r (district_of store.now d)) }
{
    if !(index.x.holds(d, r.x) & index.y.holds(d, r.y)) {
        return Stance::Outside;
    }
    match store.ring(d) {
        Some(ring) => lying(columns::locate_on(&ring, r)),
        None => Stance::Outside,
    }
}

// The districts that the index lists for r, a bit for each.
fn candidates(index: &Index, r: Point) -> u64
    requires { OnAxis index.now.x.axis × OnAxis index.now.y.axis }
    ensures { result ≡ bit_and (listed index.now.x.masks index.now.x.axis r.x) (listed index.now.y.masks index.now.y.axis r.y) }
{
    index.x.listed(r.x) & index.y.listed(r.y)
}

// The class of a point. Each turn takes the lowest district that is left, and clears its bit.
fn sort_listed(store: &Store, index: &Index, r: Point) -> Class
    requires indexed { Indexed store.now.sx.now store.now.sy.now store.now.runs.list.now index.now }
    requires on_grid { OnGrid r }
    ensures { belongs result ≡ sorted_by (λ d. lies_to r (district_of store.now d)) }
{
    let mut seen = Seen::none();
    let mut left = candidates(index, r);
    while left != 0 {
        let d = left.trailing_zeros() as usize;
        match lies_near(store, index, d, r) {
            Stance::On(touch) => return Class::Border(d, touch),
            Stance::Inside => seen = seen.with(d),
            Stance::Outside | Stance::Missed(_) => {}
        }
        left &= !(1 << d);
    }
    seen.class()
}

// Where report `number` at r belongs, in a register that is well-formed and has an outline, by an index of it. Beside `sorting::place`: one function for both would take
// the sorting as a closure, which is no plainer for two lines.
pub fn place_listed(store: &Store, index: &Index, number: u32, r: Point) -> Result<Report, Refusal>
    requires { Indexed store.now.sx.now store.now.sy.now store.now.runs.list.now index.now }
    ensures { answer_of result ≡ given (verdict (point_tests r.x r.y)) (report number (sorted_by (λ d. lies_to r (district_of store.now d)))) }
{
    on_grid(r)?;
    Ok(Report {
        number,
        class: sort_listed(store, index, r),
    })
}

// Where report `number` with this position belongs, in a well-formed register, by an index of it.
pub fn assign_listed(
    store: &Store,
    index: &Index,
    number: u32,
    position: Position,
) -> Result<Report, Refusal>
    requires { Indexed store.now.sx.now store.now.sy.now store.now.runs.list.now index.now }
    ensures { (outline : List Point) → answer_of result ≡ assigned_at true (meaning outline (points store.now.sx.now store.now.sy.now) store.now.runs.list.now) number position }
{
    if store.runs.outline_size() == 0 {
        return Err(Refusal::NoOutline);
    }
    place_listed(store, index, number, spot_of(position)?)
}
