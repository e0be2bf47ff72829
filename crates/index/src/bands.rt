// An axis that all bounds lie on, cut into bands of equal width. The width is a power of two, so that a shift tells a number's band.
ghost use Rattle.std.specs.Prelude.{◌≡◌, true, ◌<◌, ◌/◌, ◌^◌};
ghost use Rattle.std.specs.Int.Signed.{le_z};
ghost use Rattle.index.specs.Axis.{far as far_of, band as band_of, low_of, high_of, Spans};

use crate::Bounds;
use districts::NUMBERS;

pub const BANDS: usize = 64;

// The axis is shorter than 2^32: by so many it is one band.
const SHIFTS: usize = 32;

// From the lowest bound to the highest; a band is 2 to the power of `shift` wide.
#[derive(Clone, Copy)]
pub struct Axis {
    pub low: i32,
    pub high: i32,
    pub shift: usize,
}

// How far v is from low.
fn far(v: i32, low: i32) -> usize
    requires { le_z low v ≡ true }
    ensures { (result ≡ far_of v low) × (result < 2 ^ 32) }
{
    (v as i64 - low as i64) as usize
}

// The least shift by which an axis of this length comes to 64 bands or fewer.
fn shift(length: usize) -> usize
    requires { length < 2 ^ 32 }
    ensures { (result < 64) × (length / 2 ^ result < 64) }
{
    (0..SHIFTS).find(|s| length >> *s < BANDS).unwrap_or(SHIFTS)
}

pub fn spanning(bounds: &[Bounds; NUMBERS]) -> Axis
    requires { le_z (low_of bounds.now 0) (high_of bounds.now 0) ≡ true }
    ensures { Spans bounds.now result }
{
    let mut low = bounds[0].low;
    let mut high = bounds[0].high;
    for b in bounds {
        low = low.min(b.low);
        high = high.max(b.high);
    }
    Axis {
        low,
        high,
        shift: shift(far(high, low)),
    }
}

// The band of a number on the axis.
pub fn band(axis: Axis, v: i32) -> usize
    requires { (le_z axis.low v ≡ true) × (axis.shift < 64) }
    ensures { result ≡ band_of axis.low axis.shift v }
{
    far(v, axis.low) >> axis.shift
}
