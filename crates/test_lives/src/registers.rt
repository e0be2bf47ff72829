// A register twice: the five lists that the library is lent, and the other's rows. The lists are open: of any content they are asked as they stand.
ghost use Rattle.std.specs.Prelude.{◌≡◌, length};

use crate::answer::{Answer, Both, Told};
use crate::compare;
use changes::{Cut, Seam};
use districts::{COLUMN_LENGTH, Lists, ListsToChange, ListsToFound, RUNS_LENGTH};
use fixes::Fix;
use register::Position;
use test_cases::Edit;
use test_rows::{Rows, Sent};

#[derive(Clone, Copy)]
pub struct Registers {
    pub ox: [i32; COLUMN_LENGTH],
    pub oy: [i32; COLUMN_LENGTH],
    pub sx: [i32; COLUMN_LENGTH],
    pub sy: [i32; COLUMN_LENGTH],
    pub runs: [u32; RUNS_LENGTH],
    pub rows: Rows,
}

// The position as the library takes it.
fn position(sent: Sent) -> Position {
    match sent {
        Sent::Point(x, y) => Position::Grid(x, y),
        Sent::Metres(easting, northing) => Position::Fix(Fix { easting, northing }),
        Sent::Nothing => Position::Missing,
    }
}

// The rows keep no reports' numbers, so the one that was asked about is added.
fn by_rows(rows: &mut Rows, edit: Edit, points: &[i32]) -> Answer {
    let answer = match edit {
        Edit::Found => rows.found(points).map(|_| Told::Founded),
        Edit::Split { d, i, j } => rows.split(d, i, j, points).map(Told::Split),
        Edit::Merge {
            kept,
            a,
            gone,
            b,
            k,
        } => rows.merge(kept, a, gone, b, k).map(Told::Merged),
        Edit::Report { number, sent } => {
            rows.report_sent(sent).map(|belongs| Told::Sorted {
                report: number,
                belongs,
            })
        }
    };
    answer.map_err(|r| r.number())
}

impl Registers {
    pub fn new() -> Registers {
        Registers {
            ox: [0; COLUMN_LENGTH],
            oy: [0; COLUMN_LENGTH],
            sx: [0; COLUMN_LENGTH],
            sy: [0; COLUMN_LENGTH],
            runs: [0; RUNS_LENGTH],
            rows: Rows::new(),
        }
    }

    fn by_library(&mut self, edit: Edit, points: &[i32]) -> Answer {
        let answer = match edit {
            Edit::Found => register::found(&mut self.to_found(), points).map(|_| Told::Founded),
            Edit::Split { d, i, j } => {
                changes::split(&mut self.to_change(), Cut { d, i, j }, points).map(Told::Split)
            }
            Edit::Merge {
                kept,
                a,
                gone,
                b,
                k,
            } => {
                let seam = Seam {
                    kept,
                    a,
                    gone,
                    b,
                    k,
                };
                changes::merge(&mut self.to_change(), seam).map(Told::Merged)
            }
            Edit::Report { number, sent } => {
                register::assign_at(&self.lists(), number, position(sent)).map(Told::from)
            }
        };
        answer.map_err(|r| r.number())
    }

    fn to_found(&mut self) -> ListsToFound<'_> {
        let Registers {
            ox,
            oy,
            sx,
            sy,
            runs,
            rows: _,
        } = self;
        ListsToFound {
            ox,
            oy,
            sx,
            sy,
            runs,
        }
    }

    fn to_change(&mut self) -> ListsToChange<'_> {
        let Registers {
            ox,
            oy,
            sx,
            sy,
            runs,
            rows: _,
        } = self;
        ListsToChange {
            ox,
            oy,
            sx,
            sy,
            runs,
        }
    }

    fn lists(&self) -> Lists<'_>
        ensures { length result.runs.now ≡ 129 }
    {
        Lists {
            ox: &self.ox,
            oy: &self.oy,
            sx: &self.sx,
            sy: &self.sy,
            runs: &self.runs,
        }
    }

    // One call on both, with the points that it takes, and a comparison of all that they hold then.
    pub fn perform(&mut self, edit: Edit, points: &[i32]) -> Both {
        let library = self.by_library(edit, points);
        let second = by_rows(&mut self.rows, edit, points);
        Both {
            library,
            second,
            rings: compare::agree(&self.lists(), &self.rows),
        }
    }
}
