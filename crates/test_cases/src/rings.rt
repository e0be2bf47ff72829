// Rings and points, kind by kind. A list of ROOM numbers is lent, and a ring is written to its first places. Coordinates are drawn as
// numbers that are never negative, MIDDLE for 0; the grid's go from 1 to 2 MIDDLE - 1.
ghost use Rattle.std.specs.Prelude.{◌+◌, ◌*◌, ◌≤◌, ◌<◌, length};
ghost use Rattle.test_cases.specs.Room.{room, OnGrid};

use crate::{Chance, ROOM};

const FEWEST_VERTICES: usize = 3;

const MOST_VERTICES: usize = 2048;

// The fewest vertices of a long ring.
const LONG: usize = 100;

// What a coordinate of 0 is drawn as.
const MIDDLE: usize = 1_000_000_001;

#[derive(Clone, Copy)]
pub enum Kind {
    // Few places for many vertices: borders and self-crossings are common.
    SmallGrid,
    // A ring listed several times over.
    Doubled,
    // Edges of no length, and ways out and back.
    Spiked,
    // Long edges from limit to limit, half of the rings spiked, and points on and beside the middles of edges.
    Limits,
    // Up to 2,048 vertices, some of them a short ring listed over and over.
    Long,
    // Lists of a wrong length, and coordinates beyond the grid.
    Broken,
}

// The first m numbers of the list are a ring, or are to be refused as one; and a point.
#[derive(Clone, Copy)]
pub struct Case {
    pub m: usize,
    pub x: i32,
    pub y: i32,
    ghost fits: { m ≤ room },
}

// A ring of `whole` vertices, the first `once` of them listed over and over; or with spikes.
#[derive(Clone, Copy)]
struct Shape {
    whole: usize,
    once: usize,
    spiked: bool,
    ghost rounds: { (0 < once) × (once ≤ whole) × (whole ≤ 2048) },
}

// A place of the grid.
#[derive(Clone, Copy)]
struct Place {
    x: usize,
    y: usize,
    ghost x_on_grid: { OnGrid x },
    ghost y_on_grid: { OnGrid y },
}

// From -2 to 2; from -50 to 50; or within two of zero and within four of the grid's limits.
fn drawn(what: Kind, chance: &mut Chance) -> usize
    ensures { OnGrid result }
{
    match what {
        Kind::Limits => 1 + chance.draw(3) * (MIDDLE - 3) + chance.draw(5),
        Kind::Long => MIDDLE - 50 + chance.draw(101),
        _ => MIDDLE - 2 + chance.draw(5),
    }
}

// The coordinate that n stands for.
fn coordinate(n: usize) -> i32
    requires { n < 2000000003 }
{
    n as i32 - MIDDLE as i32
}

impl Place {
    fn drawn(what: Kind, chance: &mut Chance) -> Place {
        Place {
            x: drawn(what, chance),
            y: drawn(what, chance),
        }
    }
}

// The coordinate that n stands for, or one beside it.
fn beside(n: usize, chance: &mut Chance) -> i32
    requires { OnGrid n }
{
    coordinate(n + (chance.draw(4) + 1) / 2 - 1)
}

fn listed_again(chance: &mut Chance) -> Shape {
    let once = FEWEST_VERTICES + chance.draw(4);
    let whole = match chance.draw(3) {
        0 => 2 * once,
        1 => 3 * once,
        _ => 5 * once,
    };
    Shape {
        whole,
        once,
        spiked: false,
    }
}

fn long(chance: &mut Chance) -> Shape {
    let whole = LONG + chance.draw(MOST_VERTICES - LONG + 1);
    let most = 1 + chance.draw(whole - 2);
    Shape {
        whole,
        once: FEWEST_VERTICES + chance.draw(most),
        spiked: false,
    }
}

fn few(spiked: bool, chance: &mut Chance) -> Shape {
    let whole = FEWEST_VERTICES + chance.draw(8);
    Shape {
        whole,
        once: whole,
        spiked,
    }
}

fn shape_of(what: Kind, chance: &mut Chance) -> Shape {
    match what {
        Kind::Doubled => listed_again(chance),
        Kind::Long => long(chance),
        Kind::Spiked => few(true, chance),
        Kind::Limits => few(chance.draw(2) == 0, chance),
        _ => few(false, chance),
    }
}

fn put(list: &mut [i32; ROOM], i: usize, at: Place)
    requires { i < 2048 }
{
    list[2 * i] = coordinate(at.x);
    list[2 * i + 1] = coordinate(at.y);
}

// Has vertex i be the one so far back.
fn repeat(list: &mut [i32; ROOM], i: usize, back: usize)
    requires i_in_bounds { i < 2048 }
    requires back_le_i { back ≤ i }
{
    let from = i - back;
    let x = list[2 * from];
    let y = list[2 * from + 1];
    list[2 * i] = x;
    list[2 * i + 1] = y;
}

// How far back the vertex stands that vertex i repeats, one of the two before it; 0 for one of its own.
fn back(i: usize, spiked: bool, chance: &mut Chance) -> usize
    ensures { result ≤ i }
{
    if i < 2 {
        return 0;
    }
    if spiked { chance.draw(3) } else { 0 }
}

// Writes vertex i.
fn vertex(list: &mut [i32; ROOM], i: usize, back: usize, what: Kind, chance: &mut Chance)
    requires i_in_bounds { i < 2048 }
    requires back_le_i { back ≤ i }
{
    if back == 0 {
        put(list, i, Place::drawn(what, chance));
        return;
    }
    repeat(list, i, back);
}

// Writes the vertices of the first round.
fn fill(list: &mut [i32; ROOM], s: Shape, what: Kind, chance: &mut Chance) {
    for i in 0..s.once {
        let back = back(i, s.spiked, chance);
        vertex(list, i, back, what, chance);
    }
}

// Lists the first vertices over and over.
fn list_again(list: &mut [i32; ROOM], s: Shape) {
    for i in s.once..s.whole {
        repeat(list, i, s.once);
    }
}

// An edge between places drawn like vertices, seldom of no length.
fn drawn_edge(what: Kind, chance: &mut Chance) -> (Place, Place) {
    let p = Place::drawn(what, chance);
    if chance.seldom() {
        return (p, p);
    }
    (p, Place::drawn(what, chance))
}

// Half the time has some edge of the first round run from p to q, and the next one back where there are spikes.
fn plant(list: &mut [i32; ROOM], s: Shape, p: Place, q: Place, chance: &mut Chance) {
    let n = s.once;
    let i = chance.draw(n);
    if chance.draw(2) == 0 {
        return;
    }
    put(list, i, p);
    put(list, (i + 1) % n, q);
    if s.spiked {
        put(list, (i + 2) % n, p);
    }
}

// A number beyond the grid in place of x, if told to.
fn spoiled(x: i32, wrong: bool, chance: &mut Chance) -> i32 {
    if !wrong {
        return x;
    }
    match chance.draw(4) {
        0 => 1_000_000_001,
        1 => -1_000_000_001,
        2 => i32::MAX,
        _ => i32::MIN,
    }
}

// How many numbers a ring of a shape has, or, if told to, a length that no ring has: odd, of fewer than 3 vertices, or of more than 2,048.
fn length_of(s: Shape, wrong: bool, chance: &mut Chance) -> usize
    ensures { result ≤ room }
{
    let m = 2 * s.whole;
    if !wrong {
        return m;
    }
    match chance.draw(4) {
        0 => m - 1,
        1 => m + 1,
        2 => chance.draw(6),
        _ => ROOM - 3 + chance.draw(4),
    }
}

// The point is vertex 0, which must not be told before what is wrong behind it: the length, a coordinate, the point, or
// several of these.
fn broken(list: &mut [i32; ROOM], s: Shape, chance: &mut Chance) -> Case {
    let x = list[0];
    let y = list[1];
    let faults = 1 + chance.draw(15);
    let at = chance.draw(2 * s.whole);
    list[at] = spoiled(list[at], faults / 2 % 2 == 1, chance);
    Case {
        m: length_of(s, faults % 2 == 1, chance),
        x: spoiled(x, faults / 4 % 2 == 1, chance),
        y: spoiled(y, faults / 8 == 1, chance),
    }
}

// A ring, an edge planted in every round of it, and a point half way along that edge.
pub fn make(what: Kind, list: &mut [i32; ROOM], chance: &mut Chance) -> Case {
    let s = shape_of(what, chance);
    let (p, q) = drawn_edge(what, chance);
    fill(list, s, what, chance);
    plant(list, s, p, q, chance);
    list_again(list, s);
    match what {
        Kind::Broken => broken(list, s, chance),
        _ => Case {
            m: 2 * s.whole,
            x: beside((p.x + q.x) / 2, chance),
            y: beside((p.y + q.y) / 2, chance),
        },
    }
}
