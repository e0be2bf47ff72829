// What both implementations are asked, made by chance: rings and points, and calls on a register. Proved safe and ending; it knows
// nothing of the library.

#![tactic(auto)]

pub mod chance;
mod choosing;
mod matching;
mod rings;

pub use chance::Chance;
pub use choosing::{Asked, Edit, next, position};
pub use rings::{Case, Kind, make};

// How many numbers the list has that is lent for a ring: room for two vertices more than a ring may have.
pub const ROOM: usize = 4100;
