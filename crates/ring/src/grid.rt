// The grid, and the vertices of a list x0, y0, x1, y1, ..
ghost use Rattle.std.specs.Prelude.{◌≡◌, ◌+◌, ◌<◌, ◌≤◌, negsuc, length};
ghost use Rattle.std.specs.Int.Signed.{lt_z};
ghost use Rattle.ring.specs.Grid.{beyond as is_beyond, some_beyond, vertices};
ghost use Rattle.ring.specs.Rings.{at};
ghost use Rattle.ring.specs.Walk.{OnGrid, head_of, four_beyond};

use crate::Point;

// The largest coordinate of the grid, in millimetres; the least is its negative.
const LIMIT: i32 = 1_000_000_000;

// How far down the grid is moved to begin where an i32 begins.
const DOWN: i32 = -1_147_483_648;

// x moved down, round the end: the grid comes first, what is above it next, and what is below it last. The compiler makes one addition of both.
fn moved(x: i32) -> i32
    ensures { lt_z (negsuc 147_483_647) result ≡ is_beyond x }
{
    if x < -LIMIT {
        return x + i32::MAX + (LIMIT + 1);
    }
    x + DOWN
}

// By one comparison: two take longer, and of a test of many coordinates they are most.
pub fn beyond(x: i32) -> bool
    ensures { result ≡ is_beyond x }
{
    DOWN + LIMIT < moved(x)
}

// Whether some number of the list is beyond the grid. It reads the whole list, with no branch on what it reads.
pub fn some_beyond(list: &[i32]) -> bool
    ensures { result ≡ some_beyond list.now }
{
    let mut found = false;
    for x in list {
        found = found | beyond(*x);
    }
    found
}

// Whether one of the four numbers from place i on is beyond the grid.
fn four_beyond(list: &[i32], i: usize) -> bool
    requires { i + 3 < length list.now }
    ensures { result ≡ four_beyond list.now i }
{
    (beyond(list[i]) | beyond(list[i + 1])) | (beyond(list[i + 2]) | beyond(list[i + 3]))
}

// Whether some number of a short list is beyond the grid. It goes four by four and stops where one is; the last four may have been looked at in part. The
// compiler makes one comparison of four, if the loop around them is this one.
pub fn some_beyond_short(list: &[i32]) -> bool
    requires { 4 ≤ length list.now }
    ensures { result ≡ some_beyond list.now }
{
    let last = list.len() - 4;
    let mut i = 0;
    while i < last {
        if four_beyond(list, i) {
            return true;
        }
        i += 4;
    }
    four_beyond(list, last)
}

// Vertex i of a list, which need not be a ring.
pub fn vertex(list: &[i32], i: usize) -> Point
    requires { i + i + 1 < length list.now }
    ensures { result ≡ at (vertices list.now) i }
{
    Point {
        x: list[2 * i],
        y: list[2 * i + 1],
    }
}

// A point in 64 bits: the way to it from (0, 0).
pub fn wide(r: Point) -> exact::Arrow
    ensures { head_of result ≡ r }
{
    exact::Arrow::to(r.x, r.y)
}

// The point of the grid that a way from (0, 0) leads to. `locate` has the way at hand and not the point: kept for `find`, it would be written to memory in every call.
pub fn narrow(a: exact::Arrow) -> Point
    requires { OnGrid (head_of a) }
    ensures { result ≡ head_of a }
{
    Point {
        x: a.x as i32,
        y: a.y as i32,
    }
}
