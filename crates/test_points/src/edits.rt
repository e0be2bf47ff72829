// The rules' listing of edits, its known point of a split, reports on a border that is met twice, and reports by position, each call printed
// with the library's answer.
use crate::said::Said;
use std::io::Print;
use test_cases::Edit;
use test_lives::{Registers, Score};
use test_rows::Sent;

// Calls on an empty register, for an outline of four vertices; every split goes along the path.
#[derive(Clone, Copy)]
struct Story {
    name: &'static str,
    outline: &'static [i32],
    path: &'static [i32],
    calls: &'static [Edit],
}

// The rules' listing; then a split along a path that leaves the square; then a split along a path that goes out and back, and reports twice
// on the lower district's ring, once on both rings, and on the higher one's alone; then reports by position, near a rectangle from 62 to 188 mm:
// 0.0625 m and 0.1875 m are exactly half way between two millimetres, and the first report comes before there is an outline.
const STORIES: [Story; 4] = [
    Story {
        name: "listing",
        outline: &[0, 0, 4, 0, 4, 4, 0, 4],
        path: &[],
        calls: &[
            Edit::Found,
            Edit::Split { d: 0, i: 0, j: 2 },
            Edit::Report {
                number: 700,
                sent: Sent::Point(3, 1),
            },
            Edit::Report {
                number: 701,
                sent: Sent::Point(2, 2),
            },
            Edit::Report {
                number: 702,
                sent: Sent::Point(9, 9),
            },
            Edit::Split { d: 1, i: 0, j: 1 },
            Edit::Merge {
                kept: 0,
                a: 2,
                gone: 1,
                b: 0,
                k: 1,
            },
            Edit::Report {
                number: 703,
                sent: Sent::Point(2, 2),
            },
        ],
    },
    Story {
        name: "over the top",
        outline: &[0, 0, 4, 0, 4, 4, 0, 4],
        path: &[2, 9],
        calls: &[
            Edit::Found,
            Edit::Split { d: 0, i: 0, j: 1 },
            Edit::Report {
                number: 0,
                sent: Sent::Point(2, 6),
            },
            Edit::Report {
                number: 1,
                sent: Sent::Point(2, 2),
            },
        ],
    },
    Story {
        name: "out and back",
        outline: &[0, 0, 4, 0, 4, 4, 0, 4],
        path: &[1, 1, 3, 1, 1, 1],
        calls: &[
            Edit::Found,
            Edit::Split { d: 0, i: 0, j: 2 },
            Edit::Report {
                number: 710,
                sent: Sent::Point(1, 1),
            },
            Edit::Report {
                number: 711,
                sent: Sent::Point(2, 1),
            },
            Edit::Report {
                number: 712,
                sent: Sent::Point(2, 2),
            },
            Edit::Report {
                number: 713,
                sent: Sent::Point(0, 2),
            },
        ],
    },
    Story {
        name: "positions",
        outline: &[62, 0, 188, 0, 188, 100, 62, 100],
        path: &[],
        calls: &[
            Edit::Report {
                number: 800,
                sent: Sent::Metres(0.1, 0.05),
            },
            Edit::Found,
            Edit::Report {
                number: 801,
                sent: Sent::Point(100, 50),
            },
            Edit::Report {
                number: 802,
                sent: Sent::Metres(0.1, 0.05),
            },
            Edit::Report {
                number: 803,
                sent: Sent::Metres(0.0625, 0.05),
            },
            Edit::Report {
                number: 804,
                sent: Sent::Metres(0.1875, 0.05),
            },
            Edit::Report {
                number: 805,
                sent: Sent::Metres(0.0616, 0.05),
            },
            Edit::Report {
                number: 806,
                sent: Sent::Metres(0.0614, 0.05),
            },
            Edit::Report {
                number: 807,
                sent: Sent::Metres(0.1, -1000000.0005),
            },
            Edit::Report {
                number: 808,
                sent: Sent::Metres(0.1, -1000000.0005000001),
            },
            Edit::Report {
                number: 809,
                sent: Sent::Point(1_000_000_001, 50),
            },
            Edit::Report {
                number: 810,
                sent: Sent::Nothing,
            },
        ],
    },
];

// What a call is called.
fn word(edit: Edit) -> &'static str {
    match edit {
        Edit::Found => "outline",
        Edit::Split { .. } => "split",
        Edit::Merge { .. } => "merge",
        Edit::Report { .. } => "report",
    }
}

impl Story {
    // The points that a call takes.
    fn points(&self, edit: Edit) -> &'static [i32] {
        match edit {
            Edit::Found => self.outline,
            _ => self.path,
        }
    }

    fn tell(&self, rt: &impl Print) -> Score {
        let mut both = Registers::new();
        let mut score = Score::new();
        for edit in self.calls {
            let answers = both.perform(*edit, self.points(*edit));
            let _ = print!(rt; "{}: {} ", self.name, word(*edit));
            if let Edit::Report { number, .. } = *edit {
                let _ = print!(rt; "{number} ");
            }
            let _ = println!(rt; "{}", Said(answers));
            score.add(answers);
        }
        score
    }
}

pub fn all(rt: &impl Print, all: &mut Score) {
    for story in &STORIES {
        all.plus(&story.tell(rt));
    }
}
