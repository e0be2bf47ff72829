// Where a point of the grid lies against a ring of the grid. All edges are counted first, naming no place. Only where some determinant was 0
// can the point be on the ring; then it is looked for, and where it is not found the count stands.
ghost use Rattle.std.specs.Prelude.{◌≡◌, ◌≤◌, nat_abs};
ghost use Rattle.ring.specs.Grid.{vertices};
ghost use Rattle.ring.specs.Turns.{oddly};
ghost use Rattle.ring.specs.Locate.{is_odd, off as off_by, located_on, lying_of};
ghost use Rattle.ring.specs.Walk.{OnGrid, most_turns, or_else};

use crate::counting::Count;
use crate::rings::Pairs;
use crate::{Parity, Place, Point, Touch, Winding, counting, grid, places};

fn parity(w: Winding) -> Parity
    ensures { is_odd result ≡ oddly w.0 }
{
    if w.0 % 2 == 0 {
        Parity::Even
    } else {
        Parity::Odd
    }
}

// Off the ring, with what was counted.
pub fn off(c: Count) -> Place
    requires { nat_abs c.turns ≤ most_turns }
    ensures { lying_of result ≡ off_by c.turns (oddly c.turns) }
{
    let winding = Winding(c.turns as i32);
    Place::Off(winding, parity(winding))
}

// On the ring where r was met, or else off it with the count c.
pub fn found(met: Option<Touch>, c: Count) -> Place
    requires { nat_abs c.turns ≤ most_turns }
    ensures { lying_of result ≡ or_else met (off_by c.turns (oddly c.turns)) }
{
    match met {
        Some(touch) => Place::On(touch),
        None => off(c),
    }
}

// Where r lies against a ring that is held as a list.
pub fn locate_on(ring: &Pairs, r: Point) -> Place
    requires { OnGrid r }
    ensures { lying_of result ≡ located_on (vertices ring.now.list.now) r }
{
    let c = counting::blocks_of_list(ring, r);
    if c.clear == 0 {
        return found(places::find(ring, grid::wide(r)), c);
    }
    off(c)
}
