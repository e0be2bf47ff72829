// Where a point of the grid lies against a ring whose coordinates stand in two columns, all x and all y. Here one column can be read alone, so that a ring of
// some dozens of vertices is scanned before it is walked along; the walk is `ring`'s.

#![tactic(auto)]

mod passing;
mod rows;

ghost use Rattle.std.specs.Prelude.{◌≡◌};
ghost use Rattle.ring.specs.Held.{points_of};
ghost use Rattle.ring.specs.Locate.{located_on, lying_of};
ghost use Rattle.ring.specs.Walk.{OnGrid};

pub use passing::missing;
pub use ring::vertex_of as vertex;
use ring::{Columns, Place, Point};

// A point's row, or its column.
#[derive(Clone, Copy, PartialEq, Eq)]
pub enum Line {
    Row,
    Column,
}

// Where r lies against the ring.
pub fn locate_on(ring: &Columns, r: Point) -> Place
    requires { OnGrid r }
    ensures { lying_of result ≡ located_on (points_of ring.now) r }
{
    let c = rows::around(ring, r);
    if c.clear == 0 {
        return ring::found(ring::find(ring, ring::wide(r)), c);
    }
    ring::off(c)
}
