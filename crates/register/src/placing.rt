// A report's position, matched before the report is assigned. Refusals 1 and 2 come before the position's own.
ghost use Rattle.std.specs.Prelude.{◌≡◌};
ghost use Rattle.districts.specs.Answers.{answer_of};
ghost use Rattle.districts.specs.Lent.{formed, means};
ghost use Rattle.districts.specs.Held.{lists_of};
ghost use Rattle.register.specs.Placing.{assigned_at};
ghost use Rattle.register.specs.Spots.{Spots};

use crate::Position;
use crate::sorting::place;
use districts::{Lists, Report};
use refusals::Refusal;
use ring::Point;

// Where a position is: a point, perhaps beyond the grid, or why it is nowhere.
pub fn spot_of(position: Position) -> Result<Point, Refusal>
    ensures { Spots result position }
{
    match position {
        Position::Grid(x, y) => Ok(Point { x, y }),
        Position::Fix(fix) => fixes::millimetres(fix),
        Position::Missing => Err(Refusal::Missing),
    }
}

// Where report `number` with this position belongs.
pub fn assign_at(lists: &Lists, number: u32, position: Position) -> Result<Report, Refusal>
    ensures { answer_of result ≡ assigned_at (formed (lists_of lists.now)) (means (lists_of lists.now)) number position }
{
    let store = lists.usable()?;
    place(&store, number, spot_of(position)?)
}
