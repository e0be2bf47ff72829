// The list of runs, read: the outline's number of vertices, then the 64 first places, then the 64 numbers of vertices.
ghost use Rattle.std.specs.Prelude.{◌≡◌, ◌<◌, ◌^◌, length};
ghost use Rattle.districts.specs.Counts.{all_to};
ghost use Rattle.districts.specs.Lists.{outline_size, first_place, size as size_of};
ghost use Rattle.districts.specs.WellFormed.{sized, total as total_of};

// Where the first places and the numbers of vertices begin.
pub const FIRST_PLACES: usize = 1;

pub const SIZES: usize = 65;

#[derive(Clone, Copy)]
pub struct Runs<'a> {
    pub list: &'a [u32],
    ghost long: { length list.now ≡ 129 },
}

impl Runs<'_> {
    pub fn outline_size(&self) -> usize
        ensures { (result ≡ outline_size self.now.list.now) × (result < 2 ^ 32) }
    {
        self.list[0] as usize
    }

    pub fn first_place(&self, d: usize) -> usize
        requires { d < 64 }
        ensures { (result ≡ first_place self.now.list.now d) × (result < 2 ^ 32) }
    {
        self.list[FIRST_PLACES + d] as usize
    }

    pub fn size(&self, d: usize) -> usize
        requires { d < 64 }
        ensures { (result ≡ size_of self.now.list.now d) × (result < 2 ^ 32) }
    {
        self.list[SIZES + d] as usize
    }

    // How many vertices all districts have.
    pub fn total(&self) -> usize
        ensures { result ≡ total_of self.now.list.now }
    {
        total(self.list)
    }

    // It asks all numbers with no branch on what it reads: so the compiler takes some at a time.
    pub fn all_allowed(&self) -> bool
        ensures { result ≡ all_to 64 (λ d. sized (size_of self.now.list.now d)) }
    {
        let mut good = true;
        for d in 0..crate::NUMBERS {
            good &= allowed(self.size(d));
        }
        good
    }
}

// The sum of all sizes. It is handed the list: a `Runs` that is lent is first written to memory, for which a small register waits.
fn total(list: &[u32]) -> usize
    requires { length list.now ≡ 129 }
    ensures { result ≡ total_of list.now }
{
    let runs = Runs { list };
    let mut sum = 0;
    for d in 0..crate::NUMBERS {
        sum += runs.size(d);
    }
    sum
}

// Whether n vertices are no ring at all or one of the allowed size.
pub fn allowed(n: usize) -> bool
    ensures { result ≡ sized n }
{
    (n == 0) | ((ring::FEWEST_VERTICES <= n) & (n <= ring::MOST_VERTICES))
}
