// Numbers that look like chance, from a seed; the same step mixes answers into a digest.
ghost use Rattle.std.specs.Prelude.{◌<◌};

// The factor and the prime of Park and Miller's generator, small enough for 64 bits to hold every product.
const FACTOR: usize = 48_271;

const PRIME: usize = 2_147_483_647;

// One of so many choices is made to be refused.
const SELDOM: usize = 12;

// One number made of two, below PRIME.
pub fn mixed(a: usize, b: usize) -> usize {
    (a % PRIME * FACTOR + b % PRIME) % PRIME
}

#[derive(Clone, Copy)]
pub struct Chance {
    pub seed: usize,
}

impl Chance {
    pub fn draw(&mut self, below: usize) -> usize
        requires { 0 < below }
        ensures { result < below }
    {
        self.seed = mixed(self.seed, 0);
        self.seed % below
    }

    pub fn seldom(&mut self) -> bool {
        self.draw(SELDOM) == 0
    }
}
