// A register that gives every district a row of its own, to be compared with the packed one: it follows the rules, locates by
// `test_second`, and knows nothing of the library. Proved safe and ending; what it answers and leaves is compared and not proved.

#![tactic(auto)]

mod merging;
mod reporting;
mod row;
mod rows;
mod splitting;

pub use merging::same;
pub use reporting::{Belongs, Sent};
pub use row::Row;
pub use rows::Rows;

pub const NUMBERS: usize = 64;

pub const MOST_VERTICES: usize = 2048;

const FEWEST_VERTICES: usize = 3;

// Why a call is refused, by the refusal's number.
#[derive(Clone, Copy, PartialEq, Eq)]
pub enum Refusal {
    NoOutline = 2,
    OutlineThere = 3,
    NoRing = 4,
    BeyondGrid = 5,
    BadNumber = 6,
    WithItself = 7,
    BadIndex = 8,
    TooFew = 9,
    NoMatch = 10,
    NumbersInUse = 11,
    NoRoom = 12,
    NotFinite = 18,
    Missing = 19,
}

impl Refusal {
    pub fn number(self) -> usize {
        self as usize
    }
}
