// Puts the same questions to the library and to a second implementation, `test_second` and `test_rows`, and prints what came of them and
// how many differ: the rules' known points, a line each; made rings, a line for each kind; the rules' listing and other known calls,
// a line each; and the lives of made registers, a line for each sort. Points on a ring are counted by whether they have one place there, as
// `vertex`, or several, as `vertices`. What is made comes from a fixed seed, so that every run prints the same. Proved safe and ending; what
// it prints is compared.

#![tactic(auto)]

mod edits;
mod known;
mod said;

use std::io::Print;
use test_cases::{Chance, Kind, ROOM};
use test_lives::{Life, Score};

const SEED: usize = 20_011_120;

// Rings of one kind, and how many.
#[derive(Clone, Copy)]
struct Rings {
    name: &'static str,
    what: Kind,
    times: usize,
}

const KINDS: usize = 6;

const RINGS: [Rings; KINDS] = [
    Rings {
        name: "small grids",
        what: Kind::SmallGrid,
        times: 200_000,
    },
    Rings {
        name: "doubled rings",
        what: Kind::Doubled,
        times: 100_000,
    },
    Rings {
        name: "spiked rings",
        what: Kind::Spiked,
        times: 100_000,
    },
    Rings {
        name: "rings at the grid's limits",
        what: Kind::Limits,
        times: 200_000,
    },
    Rings {
        name: "long rings",
        what: Kind::Long,
        times: 1_000,
    },
    Rings {
        name: "lists to be refused",
        what: Kind::Broken,
        times: 100_000,
    },
];

// Registers that live so, and how many.
#[derive(Clone, Copy)]
struct Lives {
    name: &'static str,
    life: Life,
    times: usize,
}

const SORTS: usize = 7;

// The last two live so long that all numbers are in use, or have paths so long that the store is full.
const LIVES: [Lives; SORTS] = [
    Lives {
        name: "registers of small grids",
        life: Life {
            what: Kind::SmallGrid,
            long: false,
            times: 60,
        },
        times: 600,
    },
    Lives {
        name: "registers of doubled rings",
        life: Life {
            what: Kind::Doubled,
            long: false,
            times: 60,
        },
        times: 200,
    },
    Lives {
        name: "registers of spiked rings",
        life: Life {
            what: Kind::Spiked,
            long: false,
            times: 60,
        },
        times: 200,
    },
    Lives {
        name: "registers at the grid's limits",
        life: Life {
            what: Kind::Limits,
            long: false,
            times: 60,
        },
        times: 600,
    },
    Lives {
        name: "registers to be refused",
        life: Life {
            what: Kind::Broken,
            long: false,
            times: 60,
        },
        times: 200,
    },
    Lives {
        name: "registers up to 64 districts",
        life: Life {
            what: Kind::SmallGrid,
            long: false,
            times: 600,
        },
        times: 12,
    },
    Lives {
        name: "registers up to a full store",
        life: Life {
            what: Kind::Long,
            long: true,
            times: 150,
        },
        times: 20,
    },
];

// What can't be written is left out, and the rest follows.
fn main(rt: HostRuntime) {
    let mut chance = Chance { seed: SEED };
    let mut all = Score::new();
    known::points(&rt, &mut all);
    known::longest(&rt, &mut all);
    known::lengths(&rt, &mut all);
    made_rings(&rt, &mut chance, &mut all);
    edits::all(&rt, &mut all);
    made_lives(&rt, &mut chance, &mut all);
    let _ = println!(rt;
        "asked {} differ {} digest {}",
        all.asked, all.differ, all.digest
    );
}

fn made_rings(rt: &impl Print, chance: &mut Chance, all: &mut Score) {
    for rings in &RINGS {
        let score = rings.located(chance);
        said::score(rt, rings.name, &score);
        all.plus(&score);
    }
}

impl Rings {
    fn located(&self, chance: &mut Chance) -> Score {
        let mut space = [0i32; ROOM];
        let mut score = Score::new();
        for _ in 0..self.times {
            let case = test_cases::make(self.what, &mut space, chance);
            score.add(test_lives::located(&space[..case.m], case.x, case.y));
        }
        score
    }
}

fn made_lives(rt: &impl Print, chance: &mut Chance, all: &mut Score) {
    for lives in &LIVES {
        let score = test_lives::all(&lives.life, lives.times, chance);
        said::score(rt, lives.name, &score);
        all.plus(&score);
    }
}
