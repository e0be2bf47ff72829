// The bounds of each district along one axis. A number that is not used gets the first number of the column as both.
ghost use Rattle.std.specs.Prelude.{◌<◌, ◌≤◌, length};
ghost use Rattle.index.specs.Axis.{Bounding, BoundsOf, Bounded};

use crate::Column;
use districts::NUMBERS;

#[derive(Clone, Copy)]
pub struct Bounds {
    pub low: i32,
    pub high: i32,
}

impl Bounds {
    // Of the numbers of a column.
    fn of(column: &[i32]) -> Bounds
        requires { (0 < length column.now) × (length column.now ≤ 2048) }
        ensures { Bounding column.now result }
    {
        let mut low = column[0];
        let mut high = column[0];
        for v in column {
            low = low.min(*v);
            high = high.max(*v);
        }
        Bounds { low, high }
    }

    fn of_number(column: &Column, d: usize) -> Bounds
        requires { d < 64 }
        ensures { BoundsOf column.now.numbers.now column.now.runs.list.now d result }
    {
        let n = column.runs.size(d);
        if n == 0 {
            let any = column.numbers[0];
            return Bounds {
                low: any,
                high: any,
            };
        }
        let from = column.runs.first_place(d);
        let to = from + n;
        Bounds::of(&column.numbers[from..to])
    }

    // Of every number.
    pub fn all(bounds: &mut [Bounds; NUMBERS], column: &Column)
        ensures { Bounded column.now.numbers.now column.now.runs.list.now 64 bounds.new }
    {
        for d in 0..NUMBERS {
            bounds[d] = Bounds::of_number(column, d);
        }
    }
}
