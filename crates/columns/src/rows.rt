// Counting crossings round a ring after one pass over its column of y. Most rings of some dozens of vertices are crossed by r's row twice, once upward and
// once downward, and have no vertex on it: only those two edges count then. Other rings are walked along.
ghost use Rattle.std.specs.Prelude.{◌≡◌, true, ◌+◌, ◌<◌, ◌≤◌, nat_abs, length};
ghost use Rattle.ring.specs.Choices.{pick};
ghost use Rattle.ring.specs.Held.{points_of};
ghost use Rattle.ring.specs.Walk.{OnGrid, head_of, most_turns, Counts, Counted};
ghost use Rattle.columns.specs.Rows.{preceding, Scanned, One, Twice};

use ring::{Columns, Count, Point};

// A smaller ring is walked along as quickly as it is scanned, and of a larger one blocks are passed over as quickly.
const FEWEST_SCANNED: usize = 20;

const MOST_SCANNED: usize = 48;

// What an edge weighs that crosses the row, beside the index of the vertex that it leads to: so one sum tells whether one crosses, and which. It has 32 bits,
// as coordinates have, so that the compiler weighs four edges at a time.
const CROSSING: u32 = 65536;

// How a ring is crossed by a row: what the edges weigh that rise through it, and those that fall, and whether no vertex is on it.
#[derive(Clone, Copy)]
pub struct Crossed {
    pub rises: u32,
    pub falls: u32,
    pub apart: bool,
}

fn weight(crosses: bool, mark: u32) -> u32
    ensures { (result ≡ pick crosses mark 0) × (result ≤ mark) }
{
    if crosses { mark } else { 0 }
}

// How the edges of a ring lie to the row at v. It reads all vertices, with no branch on what it reads.
fn scan(ys: &[i32], v: i32) -> Crossed
    requires { (0 < length ys.now) × (length ys.now ≤ 2048) }
    ensures { Scanned ys.now v result }
{
    let mut rises = 0;
    let mut falls = 0;
    let mut apart = true;
    let mut low = ys[ys.len() - 1] < v;
    let mut mark = CROSSING;
    for y in ys {
        let next = *y < v;
        rises = rises + weight(low & !next, mark);
        falls = falls + weight(!low & next, mark);
        apart = apart & (next | (v < *y));
        low = next;
        mark += 1;
    }
    Crossed {
        rises,
        falls,
        apart,
    }
}

// Whether it is the weight of one edge.
fn one(weight: u32) -> bool
    ensures { result ≡ true → One weight }
{
    (CROSSING <= weight) & (weight < 2 * CROSSING)
}

// Whether one edge rises and one falls, and no vertex is on the row.
fn twice(s: Crossed) -> bool
    ensures { result ≡ true → Twice s }
{
    s.apart & (one(s.rises) & one(s.falls))
}

// To which vertex the one edge leads.
fn to(weight: u32) -> usize
    requires { 65536 ≤ weight }
    ensures { weight ≡ 65536 + result }
{
    (weight - CROSSING) as usize
}

// The vertex before vertex j of a ring of n.
fn previous(n: usize, j: usize) -> usize
    requires { j < n }
    ensures { result ≡ preceding n j }
{
    if 0 < j { j - 1 } else { n - 1 }
}

// On from c along the edge that leads to vertex j.
fn edge_to(ring: &Columns, r: exact::Arrow, j: usize, c: Count) -> Count
    requires on_grid { OnGrid (head_of r) }
    requires j_in_bounds { j < length ring.now.xs.now }
    requires turns_bound { nat_abs c.turns ≤ most_turns }
    ensures { Counts (points_of ring.now) (head_of r) (preceding (length ring.now.xs.now) j) 1 c result }
{
    let i = previous(ring.xs.len(), j);
    c.along(ring::seen(ring, r, i), ring::seen(ring, r, j))
}

// All edges of a ring, by a scan.
fn scanned(ring: &Columns, r: Point) -> Count
    requires { OnGrid r }
    ensures { Counted (points_of ring.now) r result }
{
    let s = scan(ring.ys, r.y);
    let w = ring::wide(r);
    if twice(s) {
        let risen = edge_to(ring, w, to(s.rises), Count { turns: 0, clear: 1 });
        return edge_to(ring, w, to(s.falls), risen);
    }
    ring::each(ring, w)
}

// All edges of a ring. It is the column of y that is asked for its length: the compiler then knows how long the scan is.
pub fn around(ring: &Columns, r: Point) -> Count
    requires { OnGrid r }
    ensures { Counted (points_of ring.now) r result }
{
    let n = ring.ys.len();
    if (n < FEWEST_SCANNED) | (MOST_SCANNED < n) {
        return ring::blocks(ring, r);
    }
    scanned(ring, r)
}
