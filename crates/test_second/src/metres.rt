// A value in metres as whole millimetres, found a second way: 1,000 is 125 doubled three times, and what is left of the power of two is
// halved away bit by bit, the last bit that falls and whether one fell before it telling how to round.
use crate::Refused;

// How many fractions a double has, 2^52, and how many exponents.
const FRACTIONS: u64 = 4_503_599_627_370_496;

const EXPONENTS: u64 = 2048;

// With this exponent 125 significands are the millimetres; each lower one halves them.
const WHOLE: u64 = 1072;

const MANY: u64 = 125;

const LIMIT: u64 = 1_000_000_000;

// A number that was halved: what is left, the bit that fell last, and whether one fell before it.
#[derive(Clone, Copy)]
struct Halved {
    left: u64,
    half: bool,
    more: bool,
}

impl Halved {
    fn once(self) -> Halved {
        Halved {
            left: self.left / 2,
            half: self.left % 2 == 1,
            more: self.more | self.half,
        }
    }

    // To the nearest, halves to even; it wraps, so that nothing has to be known of what is left.
    fn rounded(self) -> u64 {
        if self.half & (self.more | (self.left % 2 == 1)) {
            return self.left.wrapping_add(1);
        }
        self.left
    }
}

fn shortened(n: u64, times: u64) -> Halved {
    let mut h = Halved {
        left: n,
        half: false,
        more: false,
    };
    for _ in 0..times {
        h = h.once();
    }
    h
}

fn signed(size: u64, negative: bool) -> Result<i32, Refused> {
    if LIMIT < size {
        return Err(Refused::BeyondGrid);
    }
    let m = size as i32;
    Ok(if negative { -m } else { m })
}

// The size of a value by its exponent and fraction.
fn size_of(exponent: u64, fraction: u64) -> u64 {
    let f = fraction % FRACTIONS;
    if WHOLE <= exponent {
        return LIMIT + 1;
    }
    if exponent == 0 {
        return shortened(MANY * f, WHOLE - 1).rounded();
    }
    shortened(MANY * (FRACTIONS + f), WHOLE - exponent).rounded()
}

pub fn millimetres(metres: f64) -> Result<i32, Refused> {
    if !metres.is_finite() {
        return Err(Refused::NotFinite);
    }
    let bits = metres.to_bits();
    signed(size_of(bits / FRACTIONS % EXPONENTS, bits), metres < 0.0)
}
