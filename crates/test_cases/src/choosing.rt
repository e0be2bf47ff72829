// What a register is asked next, by chance, from the rows: mostly what can be accepted, and seldom a number, an index or a path that has
// to be refused.
ghost use Rattle.std.specs.Prelude.{◌≤◌};
ghost use Rattle.test_cases.specs.Room.{room};

use crate::{Chance, matching};
use test_rows::{NUMBERS, Rows, Sent};

// Some numbers above 63 too.
const NUMBERS_AND_MORE: usize = 70;

// The most points of a short path.
const SHORT: usize = 5;

const MILLIMETRES: f64 = 1000.0;

// A call on a register. The list of points that stands beside it is the ring that is founded with, or the path of a split.
#[derive(Clone, Copy)]
pub enum Edit {
    Found,
    Split {
        d: usize,
        i: usize,
        j: usize,
    },
    Merge {
        kept: usize,
        a: usize,
        gone: usize,
        b: usize,
        k: usize,
    },
    Report {
        number: u32,
        sent: Sent,
    },
}

// A call, and how many numbers of a list are its points.
#[derive(Clone, Copy)]
pub struct Asked {
    pub edit: Edit,
    pub m: usize,
    ghost fits: { m ≤ room },
}

// An index of row d, or seldom one beyond.
pub fn index(rows: &Rows, d: usize, chance: &mut Chance) -> usize {
    let n = rows.size(d);
    if n == 0 {
        return chance.draw(SHORT);
    }
    if chance.seldom() {
        return n + chance.draw(SHORT);
    }
    chance.draw(n)
}

// A number in use, the first from one on, or seldom any number.
pub fn district(rows: &Rows, chance: &mut Chance) -> usize {
    if chance.seldom() {
        return chance.draw(NUMBERS_AND_MORE);
    }
    let from = chance.draw(NUMBERS);
    let mut numbers = (from..NUMBERS).chain(0..from);
    numbers.find(|d| rows.in_use(*d).is_some()).unwrap_or(0)
}

// How many numbers a short path has, of a list of m: seldom any, often none.
fn short_path(m: usize, chance: &mut Chance) -> usize
    requires { m ≤ room }
    ensures { result ≤ room }
{
    if chance.seldom() {
        return chance.draw(m + 1);
    }
    if chance.draw(3) == 0 {
        return 0;
    }
    2 * chance.draw((m / 2).min(SHORT) + 1)
}

// How many numbers a long path has: exactly those that fit, one point more, or fewer.
fn long_path(rows: &Rows, chance: &mut Chance) -> usize
    ensures { result ≤ room }
{
    let pairs = rows.room() / 2;
    if pairs == 0 {
        return 0;
    }
    match chance.draw(8) {
        0 => 2 * (pairs - 1),
        1 => 2 * pairs,
        _ => 2 * chance.draw(pairs),
    }
}

fn split(rows: &Rows, chance: &mut Chance) -> Edit {
    let d = district(rows, chance);
    Edit::Split {
        d,
        i: index(rows, d, chance),
        j: index(rows, d, chance),
    }
}

// Whether to found: half the time while there is no outline, and seldom later.
fn founding(rows: &Rows, chance: &mut Chance) -> bool {
    if rows.outline.is_empty() {
        return chance.draw(2) == 0;
    }
    chance.seldom()
}

// The next change: the list has a ring of m numbers, and of ten changes so many are splits.
pub fn next(rows: &Rows, m: usize, long: bool, splits: usize, chance: &mut Chance) -> Asked
    requires { m ≤ room }
{
    if founding(rows, chance) {
        return Asked {
            edit: Edit::Found,
            m,
        };
    }
    if chance.draw(10) < splits {
        return Asked {
            edit: split(rows, chance),
            m: if long {
                long_path(rows, chance)
            } else {
                short_path(m, chance)
            },
        };
    }
    Asked {
        edit: matching::merge(rows, chance),
        m: 0,
    }
}

// A value in metres whose nearest millimetre is x, or seldom none that is a number.
fn metres(x: i32, chance: &mut Chance) -> f64 {
    match chance.draw(24) {
        0 => 0.0 / 0.0,
        1 => -1.0 / 0.0,
        2..=8 => (x as f64 + 0.4) / MILLIMETRES,
        9..=15 => (x as f64 - 0.4) / MILLIMETRES,
        _ => x as f64 / MILLIMETRES,
    }
}

// The position that a report at (x, y) is sent with.
pub fn position(x: i32, y: i32, chance: &mut Chance) -> Sent {
    match chance.draw(16) {
        0 => Sent::Nothing,
        1..=8 => Sent::Point(x, y),
        _ => Sent::Metres(metres(x, chance), metres(y, chance)),
    }
}
