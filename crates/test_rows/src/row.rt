// One row: the ring of a district or of the outline, or nothing where a number is unused. A row that is full takes no vertex.
ghost use Rattle.std.specs.Prelude.{ℕ, ◌+◌, ◌<◌, ◌≤◌, length};
ghost use Rattle.test_rows.specs.Shape.{most_vertices};

use crate::MOST_VERTICES;

// The largest coordinate of the grid; the least is its negative.
const LIMIT: i32 = 1_000_000_000;

// How many numbers the vertices of a row have room for.
const COORDINATES: usize = 4096;

#[derive(Clone, Copy)]
pub struct Row {
    // How many vertices there are; x and y of each are the first numbers.
    pub size: usize,
    numbers: [i32; COORDINATES],
    ghost fits: { size ≤ most_vertices },
}

impl Row {
    pub fn empty() -> Row {
        Row {
            size: 0,
            numbers: [0; COORDINATES],
        }
    }

    // The ring of a list x0, y0, x1, y1, ..
    pub fn of(list: &[i32]) -> Row {
        let mut row = Row::empty();
        row.extend(list.len() / 2, |k| point(list, k));
        row
    }

    pub fn is_empty(&self) -> bool {
        self.size == 0
    }

    pub fn ring(&self) -> &[i32] {
        &self.numbers[..2 * self.size]
    }

    // Vertex k; what stands behind the last vertex means nothing.
    pub fn vertex(&self, k: usize) -> (i32, i32)
        requires { k < most_vertices }
    {
        point(&self.numbers, k)
    }

    // The index t after i round the ring, and 0 in an empty one.
    pub fn after(&self, i: usize, t: usize) -> usize
        ensures { result < most_vertices }
    {
        let n = self.size;
        if n == 0 {
            return 0;
        }
        (i % n + t % n) % n
    }

    // The index t before i round the ring, and 0 in an empty one.
    pub fn before(&self, i: usize, t: usize) -> usize
        ensures { result < most_vertices }
    {
        if self.size == 0 {
            return 0;
        }
        self.after(i, self.size - t % self.size)
    }

    fn push(&mut self, vertex: (i32, i32)) {
        if self.size < MOST_VERTICES {
            let (x, y) = vertex;
            self.numbers[2 * self.size] = x;
            self.numbers[2 * self.size + 1] = y;
            self.size += 1;
        }
    }

    // Adds the vertices of the numbers below n.
    pub fn extend<F: Fn(usize) -> (i32, i32)>(&mut self, n: usize, vertex: F)
        requires { (k : ℕ) → k < n → F.pre vertex k }
    {
        for k in 0..n {
            self.push(vertex(k));
        }
    }

    // Adds the vertices of another row from i forward to j, both included.
    pub fn walk(&mut self, other: &Row, i: usize, j: usize) {
        self.extend(other.before(j, i) + 1, |t| other.vertex(other.after(i, t)));
    }
}

// Point k of a list x0, y0, x1, y1, ..
pub fn point(list: &[i32], k: usize) -> (i32, i32)
    requires { k + k + 1 < length list.now }
{
    (list[2 * k], list[2 * k + 1])
}

pub fn beyond(x: i32) -> bool {
    (x < -LIMIT) | (LIMIT < x)
}

pub fn some_beyond(list: &[i32]) -> bool {
    list.iter().any(|x| beyond(*x))
}
