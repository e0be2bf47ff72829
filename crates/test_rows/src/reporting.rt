// Reports: every row is located by `test_second`, from the highest number down.
use crate::{NUMBERS, Refusal, Rows, row};
use test_second::{Met, Refused, Where};

// Where a report belongs.
#[derive(Clone, Copy, PartialEq, Eq)]
pub enum Belongs {
    // The lowest district with the point on its ring, and where on that ring.
    Border(usize, Met),
    One(usize),
    None,
    // The lowest number, and how many.
    Several(usize, usize),
}

// A report's position as it was sent: a point in whole millimetres, two values in metres, or nothing.
#[derive(Clone, Copy)]
pub enum Sent {
    Point(i32, i32),
    Metres(f64, f64),
    Nothing,
}

// Both values are asked to be numbers before either is asked to be on the grid.
fn placed(x: f64, y: f64) -> Result<(i32, i32), Refusal> {
    match (test_second::millimetres(x), test_second::millimetres(y)) {
        (Ok(x), Ok(y)) => Ok((x, y)),
        (Err(Refused::NotFinite), _) | (_, Err(Refused::NotFinite)) => Err(Refusal::NotFinite),
        _ => Err(Refusal::BeyondGrid),
    }
}

impl Rows {
    // A border comes before all else, and the lowest district is seen last. An empty row is refused as a ring.
    fn at(&self, x: i32, y: i32) -> Belongs {
        let mut border = None;
        let mut inside = None;
        for d in (0..NUMBERS).rev() {
            match test_second::locate(self.districts[d].ring(), x, y) {
                Ok(Where::On(met)) => border = Some((d, met)),
                Ok(Where::Away { times, .. }) if 0 < times => {
                    let (_, many) = inside.unwrap_or((d, 0));
                    inside = Some((d, many + 1));
                }
                _ => {}
            }
        }
        match (border, inside) {
            (Some((d, met)), _) => Belongs::Border(d, met),
            (None, None) => Belongs::None,
            (None, Some((d, 1))) => Belongs::One(d),
            (None, Some((d, many))) => Belongs::Several(d, many),
        }
    }

    fn at_point(&self, x: i32, y: i32) -> Result<Belongs, Refusal> {
        if row::beyond(x) | row::beyond(y) {
            return Err(Refusal::BeyondGrid);
        }
        Ok(self.at(x, y))
    }

    // Where a report with this position belongs.
    pub fn report_sent(&self, sent: Sent) -> Result<Belongs, Refusal> {
        self.founded()?;
        match sent {
            Sent::Point(x, y) => self.at_point(x, y),
            Sent::Metres(x, y) => {
                let (x, y) = placed(x, y)?;
                self.at_point(x, y)
            }
            Sent::Nothing => Err(Refusal::Missing),
        }
    }
}
