// A register is held in five lent lists: the outline's x and y (ox, oy), the store's (sx, sy), and the runs. This crate reads them and answers whether they are well-formed. No function changes a list.
// It also has the answers to reports.

#![tactic(auto)]

mod lists;
mod packing;
mod runs;
mod store;

ghost use Rattle.std.specs.Prelude.{◌≡◌, ◌≤◌, length};
ghost use Rattle.districts.specs.WellFormed.{shaped as shaped_lists, counted as counted_runs, total as total_of, within};
ghost use Rattle.districts.specs.Lent.{formed};
ghost use Rattle.districts.specs.Held.{lists_of};

pub use lists::{Lists, ListsToChange, ListsToFound, begins};
use packing::Packing;
use ring::Touch;
pub use runs::{FIRST_PLACES, Runs, SIZES};
pub use store::Store;

// How long the lists of a register are: each of the four columns, and the runs.
pub const COLUMN_LENGTH: usize = 2048;

pub const RUNS_LENGTH: usize = 129;

pub const NUMBERS: usize = 64;

// Where a report belongs, by the numbers of the districts.
#[derive(Clone, Copy)]
pub enum Class {
    // On the ring of this district, the lowest such, and where on it.
    Border(usize, Touch),
    // Inside this district alone.
    One(usize),
    None,
    // Inside several: the lowest of them, and how many.
    Several(usize, usize),
}

// A report that was sorted.
#[derive(Clone, Copy)]
pub struct Report {
    pub number: u32,
    pub class: Class,
}

// Whether the five lists are a well-formed register. It reads no free room.
#[tactic(auto, unfolding(crate::specs::WellFormed::well_formed))]
pub fn well_formed(lists: &Lists) -> bool
    ensures { result ≡ formed (lists_of lists.now) }
{
    if !shaped(lists) {
        return false;
    }
    let runs = Runs { list: lists.runs };
    let all = runs.total();
    if !counted(&runs, all) {
        return false;
    }
    let packing = Packing { runs, all };
    if !packing.packed() {
        return false;
    }
    on_grid(lists.ox, lists.oy, runs.outline_size()) & on_grid(lists.sx, lists.sy, all)
}

fn shaped(lists: &Lists) -> bool
    ensures { result ≡ shaped_lists lists.now.ox.now lists.now.oy.now lists.now.sx.now lists.now.sy.now lists.now.runs.now }
{
    ((lists.ox.len() == COLUMN_LENGTH) & (lists.oy.len() == COLUMN_LENGTH))
        & (((lists.sx.len() == COLUMN_LENGTH) & (lists.sy.len() == COLUMN_LENGTH))
            & (lists.runs.len() == RUNS_LENGTH))
}

fn counted(runs: &Runs, all: usize) -> bool
    requires { all ≡ total_of runs.now.list.now }
    ensures { result ≡ counted_runs runs.now.list.now }
{
    let n = runs.outline_size();
    (runs::allowed(n) & runs.all_allowed())
        & ((all <= ring::MOST_VERTICES) & ((1 <= n) | (all == 0)))
}

// Whether the first n of both columns are on the grid. One loop for both: with two a small register takes longer.
fn on_grid(xs: &[i32], ys: &[i32], n: usize) -> bool
    requires { (n ≤ length xs.now) × (n ≤ length ys.now) }
    ensures { result ≡ within xs.now ys.now n }
{
    let mut good = true;
    for i in 0..n {
        good &= !(ring::beyond(xs[i]) | ring::beyond(ys[i]));
    }
    good
}
