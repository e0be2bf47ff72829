// What came of many questions. Counts wrap, so that no loop has to carry a bound; none comes near 2^64.
use crate::answer::{Answer, Both, Kind, Told};
use test_cases::chance::mixed;
use test_rows::Belongs;
use test_second::{Met, Where};

// Every kind of answer but refusals, and every refusal by its number.
pub const KINDS: usize = Kind::Refused as usize;

pub const REFUSALS: usize = 20;

#[derive(Clone, Copy)]
pub struct Score {
    pub asked: usize,
    // How often the answers, or what the registers hold, differ.
    pub differ: usize,
    // Of all answers in their order.
    pub digest: usize,
    pub kinds: [usize; KINDS],
    pub refusals: [usize; REFUSALS],
}

fn count(counts: &mut [usize], at: usize) {
    if at < counts.len() {
        counts[at] = counts[at].wrapping_add(1);
    }
}

fn indices(met: Met) -> usize {
    match met {
        Met::Corners(lowest, highest) | Met::Sides(lowest, highest) => mixed(lowest, highest),
    }
}

// Direction and parity of a winding number.
fn turn(backwards: bool, odd: bool) -> usize {
    match (backwards, odd) {
        (false, false) => 0,
        (false, true) => 1,
        (true, false) => 2,
        (true, true) => 3,
    }
}

// All that is told beside the kind, but the report's number: a number, what goes with it, and where on a ring.
fn told(t: Told) -> (usize, usize, usize) {
    match t {
        Told::Located { place, odd } => match place {
            Where::On(met) => (0, 0, indices(met)),
            Where::Away { times, backwards } => (times as usize, turn(backwards, odd), 0),
        },
        Told::Placed(x) => (x.unsigned_abs() as usize, usize::from(x < 0), 0),
        Told::Founded => (0, 0, 0),
        Told::Split(d) | Told::Merged(d) => (d, 0, 0),
        Told::Sorted { belongs, .. } => match belongs {
            Belongs::Border(d, met) => (d, 0, indices(met)),
            Belongs::One(d) => (d, 0, 0),
            Belongs::None => (0, 0, 0),
            Belongs::Several(d, many) => (d, many, 0),
        },
    }
}

fn digest(a: Answer) -> (Kind, usize) {
    let (kind, (number, more, on_ring)) = match a {
        Ok(t) => (t.kind(), told(t)),
        Err(refusal) => (Kind::Refused, (refusal, 0, 0)),
    };
    (kind, mixed(mixed(number, more), on_ring))
}

impl Score {
    pub fn new() -> Score {
        Score {
            asked: 0,
            differ: 0,
            digest: 0,
            kinds: [0; KINDS],
            refusals: [0; REFUSALS],
        }
    }

    // Adds the answers to one question.
    pub fn add(&mut self, both: Both) {
        let a = both.library;
        if !both.same() {
            self.differ = self.differ.wrapping_add(1);
        }
        let (kind, told) = digest(a);
        match a {
            Ok(_) => count(&mut self.kinds, kind as usize),
            Err(refusal) => count(&mut self.refusals, refusal),
        }
        self.asked = self.asked.wrapping_add(1);
        self.digest = mixed(mixed(self.digest, kind as usize), told);
    }

    // Adds what another score has counted; its own counts by kind stay.
    pub fn plus(&mut self, other: &Score) {
        self.asked = self.asked.wrapping_add(other.asked);
        self.differ = self.differ.wrapping_add(other.differ);
        self.digest = mixed(self.digest, other.digest);
    }
}
