// Telling an answer: its kind, and its values in a lent list of eight.
ghost use Rattle.std.specs.Prelude.{ℕ, ◌≡◌};
ghost use Rattle.ring.specs.Locate.{touch_of, place_of};
ghost use Rattle.refusals.specs.Numbers.{number_of};
ghost use Rattle.refusals.specs.Verdicts.{verdict_of};
ghost use Rattle.districts.specs.Answers.{belongs, answer_of};
ghost use Rattle.changes.specs.Answers as Changes;
ghost use Rattle.codes.specs.Codes.{code, refused_code, off_code, touch_code, place_code, verdict_code, change_code, border_code, on_border_code, class_code, answer_code, Tells, PlaceTells};
ghost use Rattle.codes.specs.Kinds.{kind_of};

use districts::{Class, Report};
use refusals::Refusal;
use ring::{Place, Point, Touch, Winding};

// What an answer's values are written to; include/launchramp.h has their number too.
pub type Values = [u64; 8];

// The kinds of answers, by the numbers that include/launchramp.h has.
#[derive(Clone, Copy, PartialEq, Eq)]
pub enum Kind {
    Refused = 0,
    Done = 1,
    Vertex = 2,
    Edge = 3,
    Off = 4,
    Border = 5,
    One = 6,
    None = 7,
    Several = 8,
}

fn told(kind: Kind, a: usize, b: usize, values: &mut Values) -> u32
    ensures { Tells result values.new (code (kind_of kind) a b) }
{
    *values = [a as u64, b as u64, 0, 0, 0, 0, 0, 0];
    kind as u32
}

fn refused(r: Refusal, values: &mut Values) -> u32
    ensures { Tells result values.new (refused_code (number_of r)) }
{
    told(Kind::Refused, r.number(), 0, values)
}

// A winding number as its size, and 1 where it is negative.
fn off(w: Winding, values: &mut Values) -> u32
    ensures { Tells result values.new (off_code w.0) }
{
    let turns = w.0 as i64;
    if turns < 0 {
        return told(Kind::Off, (0 - turns) as usize, 1, values);
    }
    told(Kind::Off, turns as usize, 0, values)
}

// At vertices or on edges, from the lowest index to the highest.
fn span(t: Touch) -> (Kind, usize, usize)
    ensures ring { touch_code (touch_of t) ≡ code (kind_of result.0) result.1 result.2 }
    ensures border { (d : ℕ) → on_border_code d (touch_of t) ≡ border_code d (kind_of result.0) result.1 result.2 }
{
    match t {
        Touch::Vertex(lowest, highest) => (Kind::Vertex, lowest, highest),
        Touch::Edge(lowest, highest) => (Kind::Edge, lowest, highest),
    }
}

fn touched(t: Touch, values: &mut Values) -> u32
    ensures { Tells result values.new (touch_code (touch_of t)) }
{
    let (kind, lowest, highest) = span(t);
    told(kind, lowest, highest, values)
}

// On the ring of district d.
fn on_border(d: usize, t: Touch, values: &mut Values) -> u32
    ensures { Tells result values.new (on_border_code d (touch_of t)) }
{
    let (kind, lowest, highest) = span(t);
    *values = [
        d as u64,
        0,
        kind as u64,
        lowest as u64,
        highest as u64,
        0,
        0,
        0,
    ];
    Kind::Border as u32
}

pub fn place(p: Result<Place, Refusal>, values: &mut Values) -> u32
    ensures { Tells result values.new (place_code (place_of p)) }
{
    match p {
        Ok(Place::On(touch)) => touched(touch, values),
        Ok(Place::Off(w, _)) => off(w, values),
        Err(r) => refused(r, values),
    }
}

// Done, where nothing is answered.
pub fn judged(v: Result<(), Refusal>, values: &mut Values) -> u32
    ensures { Tells result values.new (verdict_code (verdict_of v)) }
{
    match v {
        Ok(()) => told(Kind::Done, 0, 0, values),
        Err(r) => refused(r, values),
    }
}

pub fn changed(c: Result<usize, Refusal>, values: &mut Values) -> u32
    ensures { Tells result values.new (change_code (Changes.answer_of c)) }
{
    match c {
        Ok(d) => told(Kind::Done, d, 0, values),
        Err(r) => refused(r, values),
    }
}

fn class(c: Class, values: &mut Values) -> u32
    ensures { Tells result values.new (class_code (belongs c)) }
{
    match c {
        Class::Border(d, touch) => on_border(d, touch, values),
        Class::One(d) => told(Kind::One, d, 0, values),
        Class::None => told(Kind::None, 0, 0, values),
        Class::Several(d, n) => told(Kind::Several, d, n, values),
    }
}

pub fn assigned(a: Result<Report, Refusal>, values: &mut Values) -> u32
    ensures { Tells result values.new (answer_code (answer_of a)) }
{
    match a {
        Ok(report) => class(report.class, values),
        Err(r) => refused(r, values),
    }
}

// A fix on the grid is written to `point`; otherwise that stays as it was.
pub fn placed(p: Result<Point, Refusal>, point: &mut [i32; 2], values: &mut Values) -> u32
    ensures { PlaceTells result values.new p point.old point.new }
{
    match p {
        Ok(at) => {
            *point = [at.x, at.y];
            told(Kind::Done, 0, 0, values)
        }
        Err(r) => refused(r, values),
    }
}
