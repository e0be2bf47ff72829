// Where a point r is met on a ring: at vertices, or else on edges; of these the lowest index and the highest.
ghost use Rattle.std.specs.Prelude.{◌≡◌, true, ◌&&◌, ◌<◌, Option, pos, length};
ghost use Rattle.exact.specs.Sign.{Short};
ghost use Rattle.ring.specs.Segment.{between as is_between};
ghost use Rattle.ring.specs.Locate.{highest, at_vertex, on_edge};
ghost use Rattle.ring.specs.Walk.{OnGrid, head_of, first_met, spanned, with_edge, met_at, in_line};

use crate::counting::way;
use crate::rings::Ring;
use crate::{Point, Touch, grid};

// The lowest and the highest of some indices.
#[derive(Clone, Copy)]
pub struct Span {
    pub lowest: usize,
    pub highest: usize,
}

// Whether two ways from r end on both sides of it, or at it, in x and in y.
fn straddle(from: exact::Arrow, to: exact::Arrow) -> bool
    ensures { result ≡ (is_between (pos 0) from.x to.x && is_between (pos 0) from.y to.y) }
{
    (((from.x <= 0) & (0 <= to.x)) | ((to.x <= 0) & (0 <= from.x)))
        & (((from.y <= 0) & (0 <= to.y)) | ((to.y <= 0) & (0 <= from.y)))
}

// Whether r is on the closed segment between the ends of two ways from it.
fn holds(from: exact::Arrow, to: exact::Arrow) -> bool
    requires short { Short from }
    requires to_short { Short to }
    ensures { result ≡ in_line from to }
{
    (from.determinant(to).0 == 0) && straddle(from, to)
}

// The indices of `met`, and edge e, which is above them, if it holds r; the ways lead to its ends.
fn along(met: Option<Span>, e: usize, from: exact::Arrow, to: exact::Arrow) -> Option<Span>
    requires { Short from × Short to }
    ensures { result ≡ with_edge (in_line from to) e met }
{
    if !holds(from, to) {
        return met;
    }
    let lowest = met.map_or(e, |s| s.lowest);
    Some(Span { lowest, highest: e })
}

// All edges that hold r.
fn edges<R: Ring>(ring: &R, r: exact::Arrow) -> Option<Span>
    requires { OnGrid (head_of r) }
    ensures { result ≡ spanned (on_edge (R.points ring.now) (head_of r)) (length (R.points ring.now)) }
{
    let last = ring.len() - 1;
    let mut met = None;
    let mut from = way(ring, r, 0);
    for e in 0..last {
        let to = way(ring, r, e + 1);
        met = along(met, e, from, to);
        from = to;
    }
    along(met, last, from, way(ring, r, 0))
}

fn lowest_vertex<R: Ring>(ring: &R, r: Point) -> Option<usize>
    ensures { result ≡ first_met (at_vertex (R.points ring.now) r) (length (R.points ring.now)) }
{
    for v in 0..ring.len() {
        if ring.vertex(v) == r {
            return Some(v);
        }
    }
    None
}

// The highest vertex that is r, which vertex `lowest` is.
fn highest_vertex<R: Ring>(ring: &R, r: Point, lowest: usize) -> usize
    requires lowest_in_bounds { lowest < length (R.points ring.now) }
    requires met { at_vertex (R.points ring.now) r lowest ≡ true }
    ensures { result ≡ highest (at_vertex (R.points ring.now) r) (length (R.points ring.now)) }
{
    for v in (lowest + 1..ring.len()).rev() {
        if ring.vertex(v) == r {
            return v;
        }
    }
    lowest
}

// Where r is met. Vertices are looked for from both ends, which is quick; edges in one walk.
pub fn find<R: Ring>(ring: &R, r: exact::Arrow) -> Option<Touch>
    requires { OnGrid (head_of r) }
    ensures { result ≡ met_at (R.points ring.now) (head_of r) }
{
    let p = grid::narrow(r);
    if let Some(lowest) = lowest_vertex(ring, p) {
        return Some(Touch::Vertex(lowest, highest_vertex(ring, p, lowest)));
    }
    let met = edges(ring, r)?;
    Some(Touch::Edge(met.lowest, met.highest))
}
