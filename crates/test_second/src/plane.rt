// Points, directions and triangles in whole numbers that are never negative: coordinates are counted from the grid's
// least one. Every comparison is exact: each sum of products fits in 64 bits.
ghost use Rattle.std.specs.Prelude.{◌+◌, ◌*◌, ◌<◌, ◌≤◌, length};
ghost use Rattle.test_second.specs.Near.{beyond};

// The largest coordinate of the grid; the least is its negative.
const LIMIT: u32 = 1_000_000_000;

// Stands for every coordinate that is not of the grid, whose own go from 0 to 2,000,000,000.
const BEYOND: u64 = 2_000_000_001;

#[derive(Clone, Copy, PartialEq, Eq)]
pub struct Spot {
    pub x: u64,
    pub y: u64,
    ghost near: { (x ≤ beyond) × (y ≤ beyond) },
}

#[derive(Clone, Copy)]
pub struct Edge {
    pub from: Spot,
    pub to: Spot,
}

// A list x0, y0, x1, y1, .. of the corners of a closed ring, at most 2,048.
#[derive(Clone, Copy)]
pub struct Ring<'a> {
    pub numbers: &'a [i32],
    pub n: usize,
    ghost fits: { (n + n ≤ length numbers.now) × (n ≤ 2048) },
}

// How far x is above the grid's least coordinate, or BEYOND. It takes any number, so that no list has to be known to be
// on the grid.
fn shifted(x: i32) -> u64
    ensures { result ≤ beyond }
{
    let size = x.unsigned_abs();
    if LIMIT < size {
        return BEYOND;
    }
    u64::from(if x < 0 { LIMIT - size } else { LIMIT + size })
}

pub fn on_grid(x: i32) -> bool {
    shifted(x) < BEYOND
}

impl Spot {
    pub fn at(x: i32, y: i32) -> Spot {
        Spot {
            x: shifted(x),
            y: shifted(y),
        }
    }
}

impl Ring<'_> {
    pub fn corner(&self, i: usize) -> Spot
        requires { i < self.now.n }
    {
        Spot::at(self.numbers[2 * i], self.numbers[2 * i + 1])
    }

    // The last side leads back to corner 0.
    pub fn side(&self, i: usize) -> Edge
        requires { i < self.now.n }
    {
        let after = if i + 1 < self.n { i + 1 } else { 0 };
        Edge {
            from: self.corner(i),
            to: self.corner(after),
        }
    }
}

fn product(a: u64, b: u64) -> u64
    requires a_le_beyond { a ≤ beyond }
    requires b_le_beyond { b ≤ beyond }
    ensures { result ≤ beyond * beyond }
{
    a * b
}

// Whether the way from a by b to c turns left at b, strictly. The determinant's positive terms are compared with its
// negative ones, so that no number is ever below zero.
fn left(a: Spot, b: Spot, c: Spot) -> bool {
    let more = product(a.x, b.y) + product(b.x, c.y) + product(c.x, a.y);
    let less = product(a.y, b.x) + product(b.y, c.x) + product(c.y, a.x);
    less < more
}

fn between(a: u64, m: u64, b: u64) -> bool {
    (a.min(b) <= m) & (m <= a.max(b))
}

impl Edge {
    // Whether r is a point of the closed segment: in line with its ends, and in the box that they span.
    pub fn holds(self, r: Spot) -> bool {
        let Edge { from: p, to: q } = self;
        if left(p, q, r) | left(q, p, r) {
            return false;
        }
        between(p.x, r.x, q.x) & between(p.y, r.y, q.y)
    }
}

// The score of the triangle o, p, q at r if it goes counterclockwise, and 0 if it doesn't: 2 for a point strictly
// inside, 1 for one on a side from o (o, p and q excepted). The three turns about r tell the triangle's own direction.
pub fn score(o: Spot, p: Spot, q: Spot, r: Spot) -> u32
    ensures { result ≤ 2 }
{
    if left(o, r, p) | left(o, q, r) {
        return 0;
    }
    if left(r, p, q) {
        return u32::from(left(o, p, r)) + u32::from(left(o, r, q));
    }
    0
}
