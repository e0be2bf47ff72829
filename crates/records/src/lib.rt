// The record stream: what stands at the front of its bytes. `decode` has no `requires`; coordinates are written to a list of the caller's.

#![tactic(auto)]

mod decoding;
mod fields;

use changes::{Cut, Seam};
pub use decoding::decode;
use register::Position;

// A report's number and position.
#[derive(Clone, Copy)]
pub struct Sighting {
    pub number: u32,
    pub position: Position,
}

// What a record asks for.
#[derive(Clone, Copy)]
pub enum Record {
    // An outline of so many vertices, in the first places of the lent list.
    Outline(usize),
    // A split, and how many points its path has, in the first places of the lent list.
    Split(Cut, usize),
    Merge(Seam),
    Report(Sighting),
}

// A record, and how many bytes it has.
#[derive(Clone, Copy)]
pub struct Decoded {
    pub record: Record,
    pub taken: usize,
}
