// Arithmetic of grid coordinates in 64 bits, exact: differences of 32-bit coordinates and their determinants.
// The laws of the whole numbers that every later crate cites stand in proofs/.

#![tactic(auto)]

ghost use Rattle.std.specs.Prelude.{◌≡◌, ◌-ℤ◌};
ghost use Rattle.exact.specs.Sign.{Short, cross};

// The width that a determinant of grid points needs.
type Wide = i64;

// The way from one point to another.
#[derive(Clone, Copy)]
pub struct Arrow {
    pub x: Wide,
    pub y: Wide,
}

// A determinant of two arrows.
#[derive(Clone, Copy)]
pub struct Det(pub Wide);

impl Arrow {
    // The way from (0, 0) to (x, y).
    pub fn to(x: i32, y: i32) -> Arrow
        ensures { (result.x ≡ «x») × (result.y ≡ «y») }
    {
        Arrow {
            x: x as Wide,
            y: y as Wide,
        }
    }

    // The way to (x, y) from the point that this one leads to.
    pub fn between(self, x: i32, y: i32) -> Arrow
        requires { Short self }
        ensures { (result.x ≡ «x» -ℤ self.x) × (result.y ≡ «y» -ℤ self.y) }
    {
        Arrow {
            x: x as Wide - self.x,
            y: y as Wide - self.y,
        }
    }

    // The determinant self.x q.y - q.x self.y, which fits for arrows between points of the grid.
    pub fn determinant(self, q: Arrow) -> Det
        requires short { Short self }
        requires q_short { Short q }
        ensures { result.0 ≡ cross self q }
    {
        Det(self.x * q.y - q.x * self.y)
    }
}
