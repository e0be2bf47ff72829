// One question to both, about a ring or a value.
use crate::answer::{Both, Told};
use fixes::Fix;

// Where (x, y) lies against a ring.
pub fn located(list: &[i32], x: i32, y: i32) -> Both {
    Both {
        library: ring::locate(list, x, y)
            .map(Told::from)
            .map_err(|r| r.number()),
        second: test_second::locate(list, x, y)
            .map(Told::from)
            .map_err(|r| r.number()),
        rings: true,
    }
}

// A value in metres as millimetres of the grid, by itself: in a report one just beyond the grid is refused whoever let it pass.
pub fn converted(metres: f64) -> Both {
    let fix = Fix {
        easting: metres,
        northing: metres,
    };
    Both {
        library: fixes::millimetres(fix)
            .map(|at| Told::Placed(at.x))
            .map_err(|r| r.number()),
        second: test_second::millimetres(metres)
            .map(Told::Placed)
            .map_err(|r| r.number()),
        rings: true,
    }
}
