// A register's five lists with the tally of its reports, and an index of its districts that is kept as long as they don't change.
ghost use Rattle.std.specs.Prelude.{◌≡◌, true};
ghost use Rattle.districts.specs.Lent.{lent, formed};

use districts::{COLUMN_LENGTH, RUNS_LENGTH};
use index::Index;
use tally::Tally;

#[derive(Drop)]
pub struct Desk {
    pub ox: [i32; COLUMN_LENGTH],
    pub oy: [i32; COLUMN_LENGTH],
    pub sx: [i32; COLUMN_LENGTH],
    pub sy: [i32; COLUMN_LENGTH],
    pub runs: [u32; RUNS_LENGTH],
    pub tally: Tally,
    pub index: Option<Index>,
    ghost form: { formed (lent ox oy sx sy runs) ≡ true },
}

impl Desk {
    ghost use Rattle.tally.specs.Tally.{fresh};
    ghost use Rattle.history.specs.Turns.{Fresh};
    ghost use Rattle.stream.specs.Held.{lists_at, Fit};

    // An empty register and a fresh tally.
    pub fn new() -> Self
        ensures lists { Fresh (lists_at result) }
        ensures tally { result.tally ≡ fresh }
        ensures fit { Fit result }
    {
        Desk {
            ox: [0; COLUMN_LENGTH],
            oy: [0; COLUMN_LENGTH],
            sx: [0; COLUMN_LENGTH],
            sy: [0; COLUMN_LENGTH],
            runs: [0; RUNS_LENGTH],
            tally: Tally::new(),
            index: None,
        }
    }
}
