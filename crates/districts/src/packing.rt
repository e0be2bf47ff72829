// Whether the runs of the districts lie in the store from its first place on, with no gap and no overlap, in any order of numbers.
// A table says which run starts at a place. One has to start at place 0, and each has to end where one starts or at the end of all: then from run to run one comes
// to the end, and over all of them, since the end is where their sizes add up to. That needs no walk from run to run, in which every step waits for the last.
ghost use Rattle.std.specs.Prelude.{◌≡◌, ◌+◌, ◌<◌, ◌≤◌};
ghost use Rattle.districts.specs.Counts.{all_to};
ghost use Rattle.districts.specs.Places.{Marked, met as met_place, joined as joined_run};
ghost use Rattle.districts.specs.WellFormed.{packed as packed_runs, total as total_of};

use crate::{NUMBERS, Runs};
use ring::MOST_VERTICES;

// Runs that have no more vertices than the store has places, and how many they have.
#[derive(Clone, Copy)]
pub struct Packing<'a> {
    pub runs: Runs<'a>,
    pub all: usize,
    ghost sum: { all ≡ total_of runs.list.now },
    ghost most: { all ≤ 2048 },
}

impl Packing<'_> {
    pub fn packed(&self) -> bool
        ensures { result ≡ packed_runs self.now.runs.list.now }
    {
        let starts = self.starts();
        self.met(&starts, 0) & self.all_joined(&starts)
    }

    // At each place the number of the run that starts there, plus 1; 0 where none does. Once all vertices are seen the numbers left are unused.
    fn starts(&self) -> [u8; MOST_VERTICES]
        ensures { Marked self.now.runs.list.now 64 result }
    {
        let mut starts = [0; MOST_VERTICES];
        let mut seen = 0;
        for d in 0..NUMBERS {
            if seen == self.all {
                break;
            }
            self.mark(&mut starts, d);
            seen += self.runs.size(d);
        }
        starts
    }

    // Marks where d's run starts. An unused number has none, and one that starts beyond the store fits no packing.
    fn mark(&self, starts: &mut [u8; MOST_VERTICES], d: usize)
        requires d_bound { d < 64 }
        requires marked { Marked self.now.runs.list.now d starts.old }
        ensures { Marked self.now.runs.list.now (d + 1) starts.new }
    {
        let place = self.runs.first_place(d);
        if (0 < self.runs.size(d)) & (place < MOST_VERTICES) {
            starts[place] = (d + 1) as u8;
        }
    }

    fn all_joined(&self, starts: &[u8; MOST_VERTICES]) -> bool
        ensures { result ≡ all_to 64 (joined_run self.now.runs.list.now starts.now self.now.all) }
    {
        let mut good = true;
        let mut seen = 0;
        for d in 0..NUMBERS {
            if seen == self.all {
                break;
            }
            good &= self.joined(starts, d);
            seen += self.runs.size(d);
        }
        good
    }

    // Whether d is unused, or its run ends at such a place.
    fn joined(&self, starts: &[u8; MOST_VERTICES], d: usize) -> bool
        requires { d < 64 }
        ensures { result ≡ joined_run self.now.runs.list.now starts.now self.now.all d }
    {
        let n = self.runs.size(d);
        (n == 0) | self.met(starts, self.runs.first_place(d) + n)
    }

    // Whether a run starts at the place, or all end there.
    fn met(&self, starts: &[u8; MOST_VERTICES], place: usize) -> bool
        ensures { result ≡ met_place starts.now self.now.all place }
    {
        if place < self.all {
            return 0 < starts[place];
        }
        place == self.all
    }
}
