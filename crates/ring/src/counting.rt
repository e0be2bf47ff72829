// Counting crossings: an edge that rises from below r's row to on or above it counts 1 if r lies to its left, one that falls the other way -1
// if r lies to its right. Along an edge no branch is taken on what was read. Edges that r's row or column misses are passed over, some at a time.
ghost use Rattle.std.specs.Prelude.{◌≡◌, ◌+◌, ◌-◌, ◌<◌, ◌≤◌, pos, nat_abs, ◌+ℤ◌, ◌-ℤ◌, length};
ghost use Rattle.std.specs.Int.Signed.{lt_z};
ghost use Rattle.exact.specs.Sign.{eq_z, Short};
ghost use Rattle.ring.specs.Choices.{pick};
ghost use Rattle.ring.specs.Grid.{vertices};
ghost use Rattle.ring.specs.Rings.{at};
ghost use Rattle.ring.specs.Walk.{OnGrid, head_of, most_turns, Marked, Way, Sight, Gone, Counts, none, Counted};

use crate::rings::{Pairs, Ring};
use crate::{Point, grid};

// As many edges are passed over at a time. A ring of no more vertices is short: asked about alone, it is counted edge by edge.
pub const BLOCK: usize = 16;

// A vertex as seen from r: the way to it, and 1 where it lies below r's row, otherwise 0: a number and not a bool, since what two ends differ by is added up.
#[derive(Clone, Copy)]
pub struct End {
    pub way: exact::Arrow,
    pub low: i64,
}

// What was counted along some edges: crossings, and 1 as long as no determinant was 0. This is a number of 64 bits, not a bool, since
// the compiler then makes the choice in one instruction.
#[derive(Clone, Copy)]
pub struct Count {
    pub turns: i64,
    pub clear: usize,
}

pub fn marked(way: exact::Arrow) -> End
    ensures { (result.way ≡ way) × Marked result }
{
    End {
        way,
        low: i64::from(way.y < 0),
    }
}

// The way to vertex i from the point that r leads to.
pub fn way<R: Ring>(ring: &R, r: exact::Arrow, i: usize) -> exact::Arrow
    requires on_grid { OnGrid (head_of r) }
    requires i_in_bounds { i < length (R.points ring.now) }
    ensures { Way (head_of r) (at (R.points ring.now) i) result }
{
    let p = ring.vertex(i);
    r.between(p.x, p.y)
}

// Vertex i as seen from r.
pub fn seen<R: Ring>(ring: &R, r: exact::Arrow, i: usize) -> End
    requires on_grid { OnGrid (head_of r) }
    requires i_in_bounds { i < length (R.points ring.now) }
    ensures { Sight (head_of r) (at (R.points ring.now) i) result }
{
    marked(way(ring, r, i))
}

// What the ends differ by, if that counts.
fn added(from: End, to: End, counts: bool) -> i64
    requires { Marked from × Marked to }
    ensures { (result ≡ pick counts (from.low -ℤ to.low) (pos 0)) × (nat_abs result ≤ 1) }
{
    if counts { from.low - to.low } else { 0 }
}

impl Count {
    fn with(self, step: i64) -> Count
        requires turns_bound { nat_abs self.turns ≤ most_turns }
        requires step_bound { nat_abs step ≤ 1 }
        ensures { (result.turns ≡ self.turns +ℤ step) × (result.clear ≡ self.clear) }
    {
        Count {
            turns: self.turns + step,
            ..self
        }
    }

    // The count after an edge with determinant d.
    fn noting(self, d: exact::Det) -> Count
        ensures { (result.turns ≡ self.turns) × (result.clear ≡ pick (eq_z d.0 (pos 0)) 0 self.clear) }
    {
        if d.0 == 0 {
            return Count { clear: 0, ..self };
        }
        self
    }

    // The count after the edge from one end to the other.
    pub fn along(self, from: End, to: End) -> Count
        requires turns_bound { nat_abs self.turns ≤ most_turns }
        requires marked { Marked from × Marked to }
        requires short { Short from.way × Short to.way }
        ensures { Gone from to self result }
    {
        let d = from.way.determinant(to.way);
        self.with(added(from, to, (d.0 < 0) == (to.way.y < 0)))
            .noting(d)
    }

    // The count after edges from one end to the other that r's row or column misses: if they lie east of r, the two ends alone tell what they
    // count; otherwise they count nothing, and above or below the row the ends do not differ.
    pub fn past(self, from: End, to: End) -> Count
        requires turns_bound { nat_abs self.turns ≤ most_turns }
        requires marked { Marked from × Marked to }
        ensures { (result.turns ≡ self.turns +ℤ pick (lt_z (pos 0) from.way.x) (from.low -ℤ to.low) (pos 0)) × (result.clear ≡ self.clear) }
    {
        self.with(added(from, to, 0 < from.way.x))
    }
}

// The count of the closing edge.
fn closing<R: Ring>(ring: &R, r: exact::Arrow) -> Count
    requires { OnGrid (head_of r) }
    ensures { Counts (R.points ring.now) (head_of r) (length (R.points ring.now) - 1) 1 none result }
{
    let nothing = Count { turns: 0, clear: 1 };
    let last = ring.len() - 1;
    nothing.along(seen(ring, r, last), seen(ring, r, 0))
}

// On from c along the k edges from vertex i.
fn stretch<R: Ring>(ring: &R, r: exact::Arrow, i: usize, k: usize, c: Count) -> Count
    requires on_grid { OnGrid (head_of r) }
    requires k_in_bounds { i + k < length (R.points ring.now) }
    requires k_bound { nat_abs c.turns + k ≤ most_turns }
    ensures { Counts (R.points ring.now) (head_of r) i k c result }
{
    let mut count = c;
    let mut from = seen(ring, r, i);
    for j in 0..k {
        let to = seen(ring, r, i + j + 1);
        count = count.along(from, to);
        from = to;
    }
    count
}

// On from c along the k edges from vertex i, or past them.
fn block<R: Ring>(ring: &R, r: Point, i: usize, k: usize, c: Count) -> Count
    requires on_grid { OnGrid r }
    requires k_nonzero { (0 < k) × (i + k < length (R.points ring.now)) }
    requires k_bound { nat_abs c.turns + k ≤ most_turns }
    ensures { Counts (R.points ring.now) r i k c result }
{
    let w = grid::wide(r);
    if ring.is_aside(r, i, k) {
        return c.past(seen(ring, w, i), seen(ring, w, i + k));
    }
    stretch(ring, w, i, k, c)
}

// All edges of a ring, one after the other.
pub fn each<R: Ring>(ring: &R, r: exact::Arrow) -> Count
    requires { OnGrid (head_of r) }
    ensures { Counted (R.points ring.now) (head_of r) result }
{
    let first = closing(ring, r);
    stretch(ring, r, 0, ring.len() - 1, first)
}

// The same of a list. k is the place of a vertex in it: to count vertices up to n the compiler would need one register more than the machine has.
pub fn each_of_list(ring: &Pairs, r: exact::Arrow) -> Count
    requires { OnGrid (head_of r) }
    ensures { Counted (vertices ring.now.list.now) (head_of r) result }
{
    let mut count = closing(ring, r);
    let mut from = seen(ring, r, 0);
    let mut k = 2;
    while k < ring.list.len() {
        let to = seen(ring, r, k / 2);
        count = count.along(from, to);
        from = to;
        k += 2;
    }
    count
}

// All edges of a ring: by blocks that are all of one size, which the compiler then knows wherever a block is asked, and behind them edge by edge.
// With a `for` over the blocks it would write out all edges of a block, one by one, which takes half as long again.
pub fn blocks<R: Ring>(ring: &R, r: Point) -> Count
    requires { OnGrid r }
    ensures { Counted (R.points ring.now) r result }
{
    let last = ring.len() - 1;
    let w = grid::wide(r);
    let mut count = closing(ring, w);
    let mut i = 0;
    while i + BLOCK <= last {
        count = block(ring, r, i, BLOCK, count);
        i += BLOCK;
    }
    stretch(ring, w, i, last - i, count)
}

// The same of a list, whose blocks are of no fixed size: of a list, where the compiler knows the size, it asks the vertices one by one, which takes twice as long.
pub fn blocks_of_list(ring: &Pairs, r: Point) -> Count
    requires { OnGrid r }
    ensures { Counted (vertices ring.now.list.now) r result }
{
    let last = ring.len() - 1;
    let mut count = closing(ring, grid::wide(r));
    let mut i = 0;
    while i < last {
        let k = usize::min(BLOCK, last - i);
        count = block(ring, r, i, k, count);
        i += k;
    }
    count
}
