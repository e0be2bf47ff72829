// Where a grid point lies against one closed ring: at vertices, on edges, or off the ring with its winding number, which is Hormann and
// Agathos' by quarter turns; the code counts crossings, which is proved to come to the same. The call for everybody is `locate`; it has no
// `requires`.

#![tactic(auto)]

mod counting;
mod grid;
mod places;
mod rings;
mod walk;

ghost use Rattle.std.specs.Prelude.{◌≡◌, ◌/◌};
ghost use Rattle.ring.specs.Grid.{no_ring};
ghost use Rattle.ring.specs.Locate.{located, place_of};

pub use counting::{Count, End, blocks, each, marked, seen};
pub use grid::{beyond, narrow, some_beyond, vertex, wide};
pub use places::{Span, find};
use refusals::Refusal;
pub use rings::{Columns, Pairs, Ring, beside, vertex_of};
pub use walk::{found, off};

pub const FEWEST_VERTICES: usize = 3;

pub const MOST_VERTICES: usize = 2048;

// How many numbers a short ring's list has, and one more: the way for short rings refuses lists of odd length itself.
const LEAST_SHORT: usize = 2 * FEWEST_VERTICES;

const MOST_SHORT: usize = 2 * counting::BLOCK + 1;

// A point of the grid, in whole millimetres.
#[derive(Clone, Copy, PartialEq, Eq)]
pub struct Point {
    pub x: i32,
    pub y: i32,
}

#[derive(Clone, Copy)]
pub struct Winding(pub i32);

#[derive(Clone, Copy)]
pub enum Parity {
    Even,
    Odd,
}

// Where a point is on a ring: at vertices, or else on edges; the lowest index and the highest.
#[derive(Clone, Copy)]
pub enum Touch {
    Vertex(usize, usize),
    Edge(usize, usize),
}

// Where a point lies against a ring.
#[derive(Clone, Copy)]
pub enum Place {
    On(Touch),
    Off(Winding, Parity),
}

// Whether a list of m numbers makes no ring.
pub fn no_ring(m: usize) -> bool
    ensures { result ≡ no_ring m (m / 2) }
{
    let n = m / 2;
    (m % 2 == 1) | ((n < FEWEST_VERTICES) | (MOST_VERTICES < n))
}

// Where the point (x, y) lies against the ring x0, y0, x1, y1, .. Vertices come before edges, the lowest and the highest index are told, and the
// closing edge has the last index. A list that makes no ring is refused before a coordinate beyond the grid.
// A short ring is dealt with here, edge by edge: in a function of its own its answer would be looked into twice, and the way to the point, if it were kept
// for `find`, would be written to memory in every call. `find` is handed a part of the list that is all of it: the list as it came would be copied at the
// start of every call, found or not.
pub fn locate(ring: &[i32], x: i32, y: i32) -> Result<Place, Refusal>
    ensures { place_of result ≡ located ring.now x y }
{
    let m = ring.len();
    if MOST_SHORT < m {
        return locate_long(&ring[0..m], Point { x, y });
    }
    if m < LEAST_SHORT {
        return locate_long(&ring[0..m], Point { x, y });
    }
    if m % 2 == 1 {
        return Err(Refusal::NoRing);
    }
    if grid::some_beyond_short(ring) | (beyond(x) | beyond(y)) {
        return Err(Refusal::BeyondGrid);
    }
    let c = counting::each_of_list(&Pairs { list: ring }, exact::Arrow::to(x, y));
    if c.clear == 0 {
        let again = Pairs { list: &ring[0..m] };
        return Ok(found(find(&again, exact::Arrow::to(x, y)), c));
    }
    Ok(off(c))
}

// The same where the list is not that of a short ring. `locate` calls it twice, since a function that is called once is set into its caller, and
// then a short ring pays for the registers of a long one.
fn locate_long(ring: &[i32], r: Point) -> Result<Place, Refusal>
    ensures { place_of result ≡ located ring.now r.x r.y }
{
    let m = ring.len();
    if no_ring(m) {
        return Err(Refusal::NoRing);
    }
    if some_beyond(ring) | (beyond(r.x) | beyond(r.y)) {
        return Err(Refusal::BeyondGrid);
    }
    Ok(walk::locate_on(&Pairs { list: ring }, r))
}
