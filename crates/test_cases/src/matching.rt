// A common run of two districts, looked for in the rows, so that merges are accepted.
ghost use Rattle.std.specs.Prelude.{◌≤◌};
ghost use Rattle.test_rows.specs.Shape.{most_vertices};

use crate::choosing::Edit;
use crate::{Chance, choosing};
use test_rows::{NUMBERS, Row, Rows, same};

// One of so many merges is with any district.
const WILD: usize = 4;

// The lowest vertex of a ring from which back it has the edge of another from a on.
fn edge_in(ring: &Row, a: usize, other: &Row) -> Option<usize> {
    (0..other.size).find(|b| same(ring, a, other, *b, 0) & same(ring, a, other, *b, 1))
}

// The first other district from one on that has the edge of district d from a on, and where.
fn neighbour(rows: &Rows, d: usize, a: usize, from: usize) -> Option<(usize, usize)> {
    let ring = rows.in_use(d)?;
    for e in (from..NUMBERS).chain(0..from) {
        if e != d
            && let Some(other) = rows.in_use(e)
            && let Some(b) = edge_in(ring, a, other)
        {
            return Some((e, b));
        }
    }
    None
}

// How many edges the runs of two rings from a on and from b back have in common; at most one less than either has.
fn common(ring: &Row, a: usize, other: &Row, b: usize) -> usize
    ensures { result ≤ most_vertices }
{
    let most = ring.size.min(other.size);
    for k in 1..most {
        if !same(ring, a, other, b, k) {
            return k - 1;
        }
    }
    most.saturating_sub(1)
}

// The same of two districts, one of which may be none.
fn common_run(rows: &Rows, d: usize, a: usize, e: usize, b: usize) -> usize
    ensures { result ≤ most_vertices }
{
    match (rows.in_use(d), rows.in_use(e)) {
        (Some(ring), Some(other)) => common(ring, a, other, b),
        _ => 0,
    }
}

// All of a common run, or by chance a part of it or an edge too many.
fn varied(k: usize, chance: &mut Chance) -> usize
    requires { k ≤ most_vertices }
{
    match chance.draw(8) {
        0 => k + 1,
        1 => chance.draw(k + 1),
        _ => k,
    }
}

// Any district, itself included, from anywhere.
fn wild(rows: &Rows, kept: usize, a: usize, chance: &mut Chance) -> Edit {
    let gone = choosing::district(rows, chance);
    Edit::Merge {
        kept,
        a,
        gone,
        b: choosing::index(rows, gone, chance),
        k: chance.draw(4),
    }
}

pub fn merge(rows: &Rows, chance: &mut Chance) -> Edit {
    let kept = choosing::district(rows, chance);
    let a = choosing::index(rows, kept, chance);
    if chance.draw(WILD) == 0 {
        return wild(rows, kept, a, chance);
    }
    let from = chance.draw(NUMBERS);
    let (gone, b) = neighbour(rows, kept, a, from).unwrap_or((from, 0));
    Edit::Merge {
        kept,
        a,
        gone,
        b,
        k: varied(common_run(rows, kept, a, gone, b), chance),
    }
}
