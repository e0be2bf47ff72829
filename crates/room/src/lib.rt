// The room of the store: the run of a number leaves and the gap is closed; a ring of two parts is written behind all rings. Also the
// parts of a ring, written and read. Assumes of its callers what each `requires` says; the calls above establish it.

#![tactic(auto)]

mod piece;
mod store_mut;
mod storing;
mod writing;

pub use piece::{Back, Piece, Run, around};
pub use store_mut::StoreMut;
pub use storing::{copy_ring, ring_of};
pub use writing::write;

// How many numbers the largest ring has: room for the copy of a ring, x, y, x, y, ..
pub const RING_NUMBERS: usize = 4096;
