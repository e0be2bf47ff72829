// Assigning a report: every district in turn, its ring handed to locating.
ghost use Rattle.std.specs.Prelude.{◌≡◌, ◌<◌};
ghost use Rattle.ring.specs.Held.{points_of};
ghost use Rattle.ring.specs.Locate.{located_on};
ghost use Rattle.ring.specs.Walk.{OnGrid};
ghost use Rattle.refusals.specs.Verdicts.{verdict, verdict_of};
ghost use Rattle.districts.specs.Answers.{belongs, report, answer_of};
ghost use Rattle.districts.specs.Lent.{formed, means};
ghost use Rattle.districts.specs.Held.{lists_of, district_of};
ghost use Rattle.register.specs.Sorting.{lies_to, sorted_by, point_tests, given, assigned};
ghost use Rattle.register.specs.Standing.{Stands};

use crate::seen::Seen;
use crate::standing::{Stance, lying};
use columns::Line;
use districts::{Class, Lists, NUMBERS, Report, Store};
use refusals::Refusal;
use ring::{Columns, Point};

// How r lies to a ring. It is walked along only if neither of r's lines misses it; one of the two is asked first.
fn lies_to_ring(ring: &Columns, r: Point, first: Line) -> Stance
    requires { OnGrid r }
    ensures { Stands result (located_on (points_of ring.now) r) }
{
    match columns::missing(ring, r, first) {
        Some(line) => Stance::Missed(line),
        None => lying(columns::locate_on(ring, r)),
    }
}

// How r lies to district d; to an unused number it lies outside.
fn lies(store: &Store, d: usize, r: Point, first: Line) -> Stance
    requires d_bound { d < 64 }
    requires on_grid { OnGrid r }
    ensures { Stands result (lies_to r (district_of store.now d)) }
{
    match store.ring(d) {
        Some(ring) => lies_to_ring(&ring, r, first),
        None => Stance::Outside,
    }
}

// Every district in turn, until all vertices were those of one: the numbers left are unused. Of two lines the one is asked first that missed the last ring that
// was missed: rings that lie side by side are missed by the same.
fn sort(store: &Store, r: Point) -> Class
    requires { OnGrid r }
    ensures { belongs result ≡ sorted_by (λ d. lies_to r (district_of store.now d)) }
{
    let mut seen = Seen::none();
    let mut first = Line::Row;
    let all = store.runs.total();
    let mut past = 0;
    for d in 0..NUMBERS {
        if past == all {
            break;
        }
        match lies(store, d, r, first) {
            Stance::On(touch) => return Class::Border(d, touch),
            Stance::Inside => seen = seen.with(d),
            Stance::Outside => {}
            Stance::Missed(line) => first = line,
        }
        past += store.runs.size(d);
    }
    seen.class()
}

// Refusal 5.
pub fn on_grid(r: Point) -> Result<(), Refusal>
    ensures { verdict_of result ≡ verdict (point_tests r.x r.y) }
{
    if ring::beyond(r.x) | ring::beyond(r.y) {
        return Err(Refusal::BeyondGrid);
    }
    Ok(())
}

// Where report `number` at r belongs, in a register that is well-formed and has an outline.
pub fn place(store: &Store, number: u32, r: Point) -> Result<Report, Refusal>
    ensures { answer_of result ≡ given (verdict (point_tests r.x r.y)) (report number (sorted_by (λ d. lies_to r (district_of store.now d)))) }
{
    on_grid(r)?;
    Ok(Report {
        number,
        class: sort(store, r),
    })
}

// Where report `number` at r belongs.
pub fn assign(lists: &Lists, number: u32, r: Point) -> Result<Report, Refusal>
    ensures { answer_of result ≡ assigned (formed (lists_of lists.now)) (means (lists_of lists.now)) number r.x r.y }
{
    let store = lists.usable()?;
    place(&store, number, r)
}
