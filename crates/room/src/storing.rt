// What is done to the store: the run of a number leaves, and the gap is closed in both columns; a ring of two pieces is written from the first free place on, and a
// number takes it.
ghost use Rattle.std.specs.Prelude.{◌≡◌, ◌++◌, ◌+◌, ◌-◌, ◌<◌, ◌≤◌, leb, length};
ghost use Rattle.ring.specs.Choices.{pick};
ghost use Rattle.ring.specs.Columns.{points};
ghost use Rattle.districts.specs.Lent.{written};
ghost use Rattle.districts.specs.Lists.{first_place, size as size_of, part};
ghost use Rattle.districts.specs.WellFormed.{total as total_of};
ghost use Rattle.room.specs.Writing.{numbers_of, Lowered, Left, entered, Added};
ghost use Rattle.room.specs.Room.{store_of, SameStore};

use crate::writing::write;
use crate::{Piece, RING_NUMBERS, StoreMut};
use districts::{FIRST_PLACES, NUMBERS, Runs, SIZES};

fn lowered(at: usize, end: usize, n: usize) -> usize
    requires { n ≤ end }
    ensures { (result ≡ pick (leb end at) (at - n) at) × (result ≤ at) }
{
    if end <= at { at - n } else { at }
}

// Lowers by n the first places that are `end` or more.
fn lower(runs: &mut [u32], end: usize, n: usize)
    requires runs_len { length runs.old ≡ 129 }
    requires n_le_end { n ≤ end }
    ensures { Lowered runs.old end n runs.new }
{
    for e in 0..NUMBERS {
        let place = runs[FIRST_PLACES + e] as usize;
        runs[FIRST_PLACES + e] = lowered(place, end, n) as u32;
    }
}

impl StoreMut<'_> {
    // The run of number d leaves: what stands after it moves down, and the number is unused.
    pub fn remove(&mut self, d: usize)
        requires d_bound { d < 64 }
        requires inside { (first_place self.old.runs.now d + size_of self.old.runs.now d ≤ total_of self.old.runs.now) × (total_of self.old.runs.now ≤ 2048) }
        ensures lent { SameStore self.old self.new }
        ensures left { Left (store_of self.old) self.old.runs.now d (store_of self.new) self.new.runs.now }
    {
        let runs = self.runs();
        let at = runs.first_place(d);
        let n = runs.size(d);
        let all = runs.total();
        let end = at + n;
        self.sx.copy_within(end..all, at);
        self.sy.copy_within(end..all, at);
        lower(self.runs, end, n);
        self.runs[SIZES + d] = 0;
    }

    // Number e takes m vertices from a place on.
    fn enter(&mut self, e: usize, place: usize, m: usize)
        requires e_bound { e < 64 }
        requires m_bound { place + m < 4294967296 }
        ensures lent { SameStore self.old self.new }
        ensures entered { self.new.runs.now ≡ entered self.old.runs.now e place m }
        ensures store { store_of self.new ≡ store_of self.old }
    {
        self.runs[FIRST_PLACES + e] = place as u32;
        self.runs[SIZES + e] = m as u32;
    }

    // Number e takes a ring of two pieces, written behind all rings.
    pub fn add<P: Piece, Q: Piece>(&mut self, e: usize, one: &P, two: &Q)
        requires e_bound { e < 64 }
        requires fits { total_of self.old.runs.now + (P.many one.now + Q.many two.now) ≤ 2048 }
        ensures lent { SameStore self.old self.new }
        ensures added { Added (store_of self.old) self.old.runs.now e (P.points one.now ++ Q.points two.now) (store_of self.new) self.new.runs.now }
    {
        let free = self.runs().total();
        let m = one.len();
        write(self.sx, self.sy, free, one);
        write(self.sx, self.sy, free + m, two);
        self.enter(e, free, m + two.len());
    }
}

// Writes the points of two columns as x, y, x, y, .. to the first places of a list.
fn interleave(to: &mut [i32], xs: &[i32], ys: &[i32])
    requires xs_len { length xs.now ≡ length ys.now }
    requires xs_in_bounds { length xs.now + length xs.now ≤ length to.old }
    ensures { to.new ≡ written (numbers_of (points xs.now ys.now)) to.old }
{
    for k in 0..xs.len() {
        to[2 * k] = xs[k];
        to[2 * k + 1] = ys[k];
    }
}

// Writes the ring of number d as x, y, x, y, .. to the first places of a list, and answers how many numbers that are.
pub fn copy_ring(to: &mut [i32], sx: &[i32], sy: &[i32], runs: &Runs, d: usize) -> usize
    requires to_len { (length to.old ≡ 4096) × (length sx.now ≡ 2048) × (length sy.now ≡ 2048) }
    requires d_bound { d < 64 }
    requires inside { first_place runs.now.list.now d + size_of runs.now.list.now d ≤ 2048 }
    ensures many { result ≡ size_of runs.now.list.now d + size_of runs.now.list.now d }
    ensures copied { to.new ≡ written (numbers_of (part (points sx.now sy.now) (first_place runs.now.list.now d) (size_of runs.now.list.now d))) to.old }
{
    let n = runs.size(d);
    let from = runs.first_place(d);
    let end = from + n;
    interleave(to, &sx[from..end], &sy[from..end]);
    2 * n
}

// The same of a store, as the part of the list that was written.
pub fn ring_of<'a>(store: &StoreMut, d: usize, to: &'a mut [i32; RING_NUMBERS]) -> &'a [i32]
    requires d_bound { d < 64 }
    requires inside { first_place store.now.runs.now d + size_of store.now.runs.now d ≤ 2048 }
    ensures { result.now ≡ numbers_of (part (store_of store.now) (first_place store.now.runs.now d) (size_of store.now.runs.now d)) }
{
    let many = copy_ring(to, store.sx, store.sy, &store.runs(), d);
    &to[0..many]
}
