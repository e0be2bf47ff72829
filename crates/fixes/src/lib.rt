// A receiver's fix, two doubles of metres, as a point of the grid in whole millimetres. No public call has a `requires`.

#![tactic(auto)]

mod rounding;

ghost use Rattle.std.specs.Prelude.{◌≡◌};
ghost use Rattle.fixes.specs.Millimetres.{placed};

use refusals::Refusal;
use ring::Point;

#[derive(Clone, Copy)]
pub struct Fix {
    pub easting: f64,
    pub northing: f64,
}

// Each value's nearest millimetre, halves to even. A NaN or an infinity in either value is refused before what is beyond the grid.
pub fn millimetres(fix: Fix) -> Result<Point, Refusal>
    ensures { result ≡ placed fix.easting fix.northing }
{
    if !(fix.easting.is_finite() & fix.northing.is_finite()) {
        return Err(Refusal::NotFinite);
    }
    let x = rounding::nearest(fix.easting);
    let y = rounding::nearest(fix.northing);
    if ring::beyond(x) | ring::beyond(y) {
        return Err(Refusal::BeyondGrid);
    }
    Ok(Point { x, y })
}
