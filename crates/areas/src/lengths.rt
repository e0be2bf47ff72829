// The lengths of an area's rings as a founding is given them, outer ring first. No function here has a `requires`.
ghost use Rattle.std.specs.Prelude.{◌≡◌};
ghost use Rattle.areas.specs.Lengths.{no_rings, too_many_lakes};

use crate::MOST_RINGS;
use ring::{FEWEST_VERTICES, MOST_VERTICES};

// Whether a list of so many numbers x, y, x, y, .. is not the rings of these lengths. What is left of the points is counted down: the lengths may add up to more
// than a number of the code holds.
pub fn no_rings(points: usize, lengths: &[u32]) -> bool
    ensures { result ≡ no_rings points lengths.now }
{
    if (points % 2 == 1) | (lengths.len() == 0) {
        return true;
    }
    let mut left = points / 2;
    for length in lengths {
        let n = *length as usize;
        if ((n < FEWEST_VERTICES) | (MOST_VERTICES < n)) | (left < n) {
            return true;
        }
        left -= n;
    }
    0 < left
}

// Whether there are more than 8 lakes.
pub fn too_many_lakes(lengths: &[u32]) -> bool
    ensures { result ≡ too_many_lakes lengths.now }
{
    MOST_RINGS < lengths.len()
}
