// Whether a point's row or its column misses a whole ring, so that nobody has to walk along it: the point is off the ring then, and does not wind about it.
ghost use Rattle.std.specs.Prelude.{◌≡◌, true, false, pos};
ghost use Rattle.ring.specs.Held.{points_of};
ghost use Rattle.ring.specs.Locate.{off, located_on};
ghost use Rattle.ring.specs.Walk.{OnGrid};
ghost use Rattle.columns.specs.Missing.{Misses};

use crate::Line;
use ring::{Columns, Point};

// A smaller ring is walked along as quickly as it is asked, and of a larger one the walk asks block by block.
const FEWEST_ASKED: usize = 8;

const MOST_ASKED: usize = 64;

impl Line {
    fn other(self) -> Line {
        match self {
            Line::Row => Line::Column,
            Line::Column => Line::Row,
        }
    }
}

// Whether r's line misses all vertices.
fn line_misses(ring: &Columns, r: Point, line: Line) -> bool
    requires { OnGrid r }
    ensures { result ≡ true → located_on (points_of ring.now) r ≡ off (pos 0) false }
{
    let last = ring.xs.len() - 1;
    match line {
        Line::Row => ring::beside(ring.ys, r.y, 0, last),
        Line::Column => ring::beside(ring.xs, r.x, 0, last),
    }
}

// Which of r's lines misses the ring, if it is worth asking.
pub fn missing(ring: &Columns, r: Point, first: Line) -> Option<Line>
    requires { OnGrid r }
    ensures { Misses result (located_on (points_of ring.now) r) }
{
    let n = ring.xs.len();
    if (n < FEWEST_ASKED) | (MOST_ASKED < n) {
        return None;
    }
    if line_misses(ring, r, first) {
        return Some(first);
    }
    let second = first.other();
    if line_misses(ring, r, second) {
        return Some(second);
    }
    None
}
