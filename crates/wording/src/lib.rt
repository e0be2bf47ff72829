// The lines that the grouping program prints, written as bytes into a list that the caller lends. `line` and `end_line` have no `requires`:
// a list that is too short for a line is left as it was.

#![tactic(auto)]

mod lines;
mod text;

use districts::Class;
pub use lines::{ROOM, end_line, line, line_at};

// A record's kind, a report with its number. `Broken` is the record that ends the reading.
#[derive(Clone, Copy)]
pub enum Kind {
    Outline,
    Split,
    Merge,
    Report(u32),
    Broken,
}

// What a line says of a record. A refusal is one answer of four here, since nobody goes on behind one and not behind another.
#[derive(Clone, Copy)]
pub enum Said {
    Ok,
    // The district that was made, or kept.
    OkWith(usize),
    Sorted(Class),
    // A refusal's number, whoever gives it.
    Refused(usize),
}
