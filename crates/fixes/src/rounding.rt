// One value of a fix, from its own bits: a sign, an exponent's field of 11 bits and a fraction of 52. A field above 0 stands for
// (2^52 + fraction) 2^(field - 1075), field 0 for fraction 2^-1074. Multiplied by 1,000 in doubles it would be rounded twice.
ghost use Rattle.std.specs.Prelude.{◌≡◌, true, ◌^◌, ◌<◌};
ghost use Rattle.fixes.specs.Nearest.{finite as is_finite};
ghost use Rattle.fixes.specs.Millimetres.{rounded, size_of, StandsFor};

// 2^63, the sign's weight; 2^52, the weight of the exponent's field.
const SIGN: u64 = 9_223_372_036_854_775_808;

const FIELD: u64 = 4_503_599_627_370_496;

// The lowest field of values of 2^20 metres and more, which are beyond the grid.
const FAR: u64 = 1043;

// A field above 0 stands for the power of two that is this much lower; the exponent of the smallest values, negated.
const BIAS: u64 = 1075;

const SMALLEST: u64 = 1074;

const MILLIMETRES: u64 = 1000;

// The first number beyond the grid.
const BEYOND: u64 = 1_000_000_001;

const WIDTH: u64 = 64;

// n / 2^s to the nearest whole number, halves to even. (The library rounds doubles, and here there is none: what is divided is exact.)
fn divided(n: u64, s: u64) -> u64
    requires { n < 2 ^ 63 }
    ensures { result ≡ rounded n (2 ^ s) }
{
    if WIDTH <= s {
        return 0;
    }
    let unit = 1u64 << s;
    let whole = n / unit;
    let twice = 2 * (n % unit);
    if twice < unit {
        return whole;
    }
    if unit < twice {
        return whole + 1;
    }
    whole + whole % 2
}

// The size of a value in millimetres, by its field and fraction; of a far one, the first number beyond the grid.
fn size(field: u64, fraction: u64) -> u64
    requires { fraction < 2 ^ 52 }
    ensures { result ≡ size_of field fraction }
{
    if FAR <= field {
        return BEYOND;
    }
    if field == 0 {
        return divided(MILLIMETRES * fraction, SMALLEST);
    }
    divided(MILLIMETRES * (FIELD + fraction), BIAS - field)
}

// The nearest millimetre of a value in metres, or a number beyond the grid where that is.
pub fn nearest(x: f64) -> i32
    requires { is_finite x ≡ true }
    ensures { StandsFor result x }
{
    let bits = x.to_bits();
    let n = size(bits % SIGN / FIELD, bits % FIELD) as i32;
    if bits < SIGN {
        return n;
    }
    -n
}
