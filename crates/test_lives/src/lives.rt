// The lives of made registers, one after the other: each is empty at first, then founded, edited and asked about.
use crate::registers::Registers;
use crate::score::Score;
use test_cases::{Chance, Edit, Kind, ROOM};

// How many of ten changes are splits where districts are to become more, and fewer.
const MORE: usize = 8;

const FEWER: usize = 2;

// How many numbers a report can have.
const REPORT_NUMBERS: usize = 4_294_967_296;

// What registers are made of, and paths, short or long; how many steps each lives.
#[derive(Clone, Copy)]
pub struct Life {
    pub what: Kind,
    pub long: bool,
    pub times: usize,
}

impl Life {
    fn kind(&self, chance: &mut Chance) -> Kind {
        if chance.seldom() {
            return Kind::Broken;
        }
        self.what
    }

    // In the first third of a life districts become more, in the second fewer, and in the last more again.
    fn splits_at(&self, t: usize) -> usize {
        let third = self.times / 3;
        if (third <= t) & (t < 2 * third) {
            return FEWER;
        }
        MORE
    }

    // Step t: a change, and a question where a report belongs.
    fn step(
        &self,
        t: usize,
        both: &mut Registers,
        space: &mut [i32; ROOM],
        chance: &mut Chance,
        score: &mut Score,
    ) {
        let case = test_cases::make(self.kind(chance), space, chance);
        let asked = test_cases::next(&both.rows, case.m, self.long, self.splits_at(t), chance);
        score.add(both.perform(asked.edit, &space[..asked.m]));
        let number = chance.draw(REPORT_NUMBERS) as u32;
        let sent = test_cases::position(case.x, case.y, chance);
        score.add(both.perform(Edit::Report { number, sent }, &[]));
    }

    fn lived(&self, space: &mut [i32; ROOM], chance: &mut Chance, score: &mut Score) {
        let mut both = Registers::new();
        for t in 0..self.times {
            self.step(t, &mut both, space, chance, score);
        }
    }
}

// What came of so many lives.
pub fn all(life: &Life, lives: usize, chance: &mut Chance) -> Score {
    let mut space = [0i32; ROOM];
    let mut score = Score::new();
    for _ in 0..lives {
        life.lived(&mut space, chance, &mut score);
    }
    score
}
