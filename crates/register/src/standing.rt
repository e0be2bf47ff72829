// How a point lies to a district.
ghost use Rattle.ring.specs.Locate.{lying_of};
ghost use Rattle.register.specs.Standing.{Stands};

use columns::Line;
use ring::{Place, Touch, Winding};

// How a point lies to one district.
#[derive(Clone, Copy)]
pub enum Stance {
    On(Touch),
    Inside,
    Outside,
    // Outside, as this line of the point tells.
    Missed(Line),
}

// Off a ring the winding number tells.
pub fn lying(place: Place) -> Stance
    ensures { Stands result (lying_of place) }
{
    match place {
        Place::On(touch) => Stance::On(touch),
        Place::Off(Winding(0), _) => Stance::Outside,
        Place::Off(..) => Stance::Inside,
    }
}
