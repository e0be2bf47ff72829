// Where a point of the grid lies to an area: an outer ring and its lakes, which stand one behind the other in two columns, all x and all y. And which lengths
// of rings a founding refuses.

#![tactic(auto)]

mod lengths;

ghost use Rattle.std.specs.Prelude.{◌≡◌};
ghost use Rattle.ring.specs.Columns.{points};
ghost use Rattle.areas.specs.Areas.{parts, given, lies_in, lie_of};
ghost use Rattle.areas.specs.Walk.{Ready};

pub use lengths::{no_rings, too_many_lakes};
use ring::{Columns, Place, Point, Touch, Winding};

// An outer ring and at most 8 lakes.
const MOST_RINGS: usize = 9;

// Where a point lies to an area: on a ring, by its number and where on it, or off all rings with the winding number.
#[derive(Clone, Copy)]
pub enum Lying {
    On(usize, Touch),
    Off(Winding),
}

// Where r lies to the area whose rings the columns hold, one behind the other. Of its nine sizes, one for each ring, those behind a 0 are not looked at.
pub fn locate_on(xs: &[i32], ys: &[i32], sizes: &[u32], r: Point) -> Lying
    requires { Ready xs.now ys.now sizes.now r }
    ensures { lie_of result ≡ lies_in (parts (given sizes.now) (points xs.now ys.now)) r }
{
    let mut about = 0;
    let mut at = 0;
    for (k, size) in sizes.iter().enumerate() {
        let n = *size as usize;
        if n == 0 {
            return Lying::Off(Winding(about));
        }
        let to = at + n;
        let ring = Columns {
            xs: &xs[at..to],
            ys: &ys[at..to],
        };
        match columns::locate_on(&ring, r) {
            Place::On(touch) => return Lying::On(k, touch),
            Place::Off(w, _) => about += w.0,
        }
        at = to;
    }
    Lying::Off(Winding(about))
}
