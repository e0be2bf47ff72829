// The tally of sorted reports: a count for each of the 64 district numbers, raised for One, and one each for Border, None and
// Several. `count` raises it where the caller keeps it, one report at a time. No public function has a `requires`.

#![tactic(auto)]

ghost use Rattle.std.specs.Prelude.{◌≡◌, false};
ghost use Rattle.districts.specs.Answers.{belongs, answer_of};
ghost use Rattle.tally.specs.Tally.{fresh, count_if, uncounted, counting, Raises, ones_of, tallied, answered};

use districts::{Class, NUMBERS, Report};
use refusals::Refusal;

// The largest number that a count can be.
pub const MOST: u32 = 4_294_967_295;

#[derive(Clone, Copy)]
pub struct Tally {
    pub ones: [u32; NUMBERS],
    pub border: u32,
    pub none: u32,
    pub several: u32,
}

impl Tally {
    pub fn new() -> Self
        ensures { result ≡ fresh }
    {
        Tally {
            ones: [0; NUMBERS],
            border: 0,
            none: 0,
            several: 0,
        }
    }

    // The count that a class raises; a number above 63 has none: assigning never gives one.
    fn count_of(&self, class: Class) -> Option<u32>
        ensures { result ≡ count_if self.now (belongs class) }
    {
        match class {
            Class::Border(_, _) => Some(self.border),
            Class::One(d) => self.ones.get(d).copied(),
            Class::None => Some(self.none),
            Class::Several(_, _) => Some(self.several),
        }
    }

    // Another count for a class that has one. (The count itself can't be lent: nothing is proved yet of an element of an array that is lent from a field.)
    fn set_count(&mut self, class: Class, n: u32)
        requires { uncounted (belongs class) ≡ false }
        ensures { self.new ≡ counting self.old (belongs class) n }
    {
        match class {
            Class::Border(_, _) => self.border = n,
            Class::One(d) => self.ones[d] = n,
            Class::None => self.none = n,
            Class::Several(_, _) => self.several = n,
        }
    }

    // The tally with the count of a class one higher, or refusal 14 where it is full, or there is none.
    fn raised(mut self, class: Class) -> Result<Tally, Refusal>
        ensures { Raises self (belongs class) result }
    {
        let n = self
            .count_of(class)
            .and_then(|n| n.checked_add(1))
            .ok_or(Refusal::CountFull)?;
        self.set_count(class, n);
        Ok(self)
    }

    // Counts one sorted report where the caller keeps the tally, and answers it, or refusal 14 where its count is full. A refusal passes through and is not counted.
    pub fn count(&mut self, answer: Result<Report, Refusal>) -> Result<Report, Refusal>
        ensures tally { self.new ≡ tallied self.old (answer_of answer) }
        ensures answer { answer_of result ≡ answered self.old (answer_of answer) }
    {
        let report = answer?;
        *self = self.raised(report.class)?;
        Ok(report)
    }

    // The 64 counts of One together: what the grouping program prints. By a loop, since a sum of a chain needs its bound asked of the caller.
    pub fn sum_of_ones(&self) -> u64
        ensures { result ≡ ones_of self.now }
    {
        let mut sum = 0;
        for n in &self.ones {
            sum += u64::from(*n);
        }
        sum
    }
}
