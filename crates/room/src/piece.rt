// The pieces of which a ring is made: some vertices of a ring, going forward, and a path, going back.
ghost use Rattle.std.specs.Prelude.{◌≡◌, ℕ, ◌+◌, ◌/◌, ◌%◌, ◌<◌, List, length, reverse};
ghost use Rattle.ring.specs.declared.Point.{Point};
ghost use Rattle.ring.specs.Grid.{vertices};
ghost use Rattle.ring.specs.Rings.{at};
ghost use Rattle.room.specs.Runs.{Within, run};

use ring::Point;

// Points that are written one after the other.
pub trait Piece {
    ghost points: { Self → List Point };

    ghost many: { Self → ℕ };

    fn len(&self) -> usize
        ensures many { result ≡ many self.now }
        ensures all { length (points self.now) ≡ many self.now };

    fn point(&self, k: usize) -> Point
        requires { k < many self.now }
        ensures { result ≡ at (points self.now) k };
}

// Some vertices of a ring that is a list x, y, x, y, ..: so many, going forward from one of them and round the end.
#[derive(Clone, Copy)]
pub struct Run<'a> {
    pub ring: &'a [i32],
    pub from: usize,
    pub many: usize,
    ghost within: { Within ring.now from many },
}

// A path x, y, x, y, .. from its last point to its first.
#[derive(Clone, Copy)]
pub struct Back<'a> {
    pub path: &'a [i32],
    ghost even: { length path.now % 2 ≡ 0 },
}

impl Piece for Run<'_> {
    ghost points = { λ r. run (vertices r.ring.now) r.from r.many };

    ghost many = { λ r. r.many };

    fn len(&self) -> usize {
        self.many
    }

    fn point(&self, k: usize) -> Point {
        ring::vertex(self.ring, around(self.from + k, self.ring.len() / 2))
    }
}

impl Piece for Back<'_> {
    ghost points = { λ b. reverse (vertices b.path.now) };

    ghost many = { λ b. length b.path.now / 2 };

    fn len(&self) -> usize {
        self.path.len() / 2
    }

    fn point(&self, k: usize) -> Point {
        ring::vertex(self.path, self.path.len() / 2 - 1 - k)
    }
}

// An index that has gone round at most once.
pub fn around(k: usize, n: usize) -> usize
    requires { k < n + n }
    ensures { (result ≡ k % n) × (result < n) }
{
    if k < n { k } else { k - n }
}
