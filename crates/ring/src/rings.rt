// Rings of the grid: what the walks round a ring ask of one, and the two ways to hold one, as a list x0, y0, x1, y1, .. and as two columns, all x and all y.
// That it is a ring, and on the grid, is a fact of every value of the two structs.
ghost use Rattle.std.specs.Prelude.{◌≡◌, true, ◌+◌, ◌<◌, ◌≤◌, List, length};
ghost use Rattle.ring.specs.declared.Point.{Point};
ghost use Rattle.ring.specs.Grid.{vertices};
ghost use Rattle.ring.specs.Columns.{points, few-points, IsPairs, IsRing, Beside};
ghost use Rattle.ring.specs.Rings.{at};
ghost use Rattle.ring.specs.Walk.{OnGrid, Aside};

use crate::{Point, grid};

// A ring of at least 3 and at most 2,048 vertices, all on the grid.
pub trait Ring {
    ghost points: { Self → List Point };

    fn len(&self) -> usize
        ensures all { result ≡ length (points self.now) }
        ensures least { 3 ≤ result };

    fn vertex(&self, i: usize) -> Point
        requires { i < length (points self.now) }
        ensures here { result ≡ at (points self.now) i }
        ensures on_grid { OnGrid result };

    // Whether the vertices from vertex i to vertex i + k lie all north, all south, all east or all west of r. It reads them all, with no branch on
    // what it reads.
    fn is_aside(&self, r: Point, i: usize, k: usize) -> bool
        requires { i + k < length (points self.now) }
        ensures { result ≡ true → Aside (points self.now) r i k };

    ghost few: { (x : Self) → length (points x) ≤ 2048 };
}

#[derive(Clone, Copy)]
pub struct Pairs<'a> {
    pub list: &'a [i32],
    ghost ring: { IsPairs list.now },
}

#[derive(Clone, Copy)]
pub struct Columns<'a> {
    pub xs: &'a [i32],
    pub ys: &'a [i32],
    pub ghost ring: { IsRing xs.now ys.now },
}

impl Ring for Pairs<'_> {
    ghost points = { λ p. vertices p.list.now };

    ghost few = { λ p. p.ring.most };

    fn len(&self) -> usize {
        self.list.len() / 2
    }

    fn vertex(&self, i: usize) -> Point {
        grid::vertex(self.list, i)
    }

    fn is_aside(&self, r: Point, i: usize, k: usize) -> bool {
        let mut north = true;
        let mut south = true;
        let mut east = true;
        let mut west = true;
        for j in 0..k + 1 {
            let p = grid::vertex(self.list, i + j);
            north = north & (r.y < p.y);
            south = south & (p.y < r.y);
            east = east & (r.x < p.x);
            west = west & (p.x < r.x);
        }
        (north | south) | (east | west)
    }
}

impl Ring for Columns<'_> {
    ghost points = { λ c. points c.xs.now c.ys.now };

    ghost few = { λ c. few-points c.xs.now c.ys.now c.ring.most };

    fn len(&self) -> usize {
        self.xs.len()
    }

    fn vertex(&self, i: usize) -> Point {
        vertex_of(self.xs, self.ys, i)
    }

    // The row is asked first: most blocks that are missed are missed by it.
    fn is_aside(&self, r: Point, i: usize, k: usize) -> bool {
        if beside(self.ys, r.y, i, k) {
            return true;
        }
        beside(self.xs, r.x, i, k)
    }
}

// Vertex i of two columns, of any length and content.
pub fn vertex_of(xs: &[i32], ys: &[i32], i: usize) -> Point
    requires { (i < length xs.now) × (length xs.now ≡ length ys.now) }
    ensures { result ≡ at (points xs.now ys.now) i }
{
    Point { x: xs[i], y: ys[i] }
}

// Whether the k + 1 numbers of a column from place i on lie all above or all below v. It reads them all, with no branch on what it reads.
pub fn beside(column: &[i32], v: i32, i: usize, k: usize) -> bool
    requires { (i + k < length column.now) × (length column.now ≤ 2048) }
    ensures { result ≡ true → Beside column.now v i k }
{
    let mut above = true;
    let mut below = true;
    for p in &column[i..i + k + 1] {
        above = above & (v < *p);
        below = below & (*p < v);
    }
    above | below
}
