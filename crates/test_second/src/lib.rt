// Where a point lies against a closed ring, found a second way, to be compared with the first: the ring is covered by
// triangles from a common origin to each edge, as Jiménez, Feito and Segura do. And metres as whole millimetres. It knows nothing of the
// other crates. Proved safe and ending for every list, point and value; its answers are compared and not proved. `locate` and `millimetres`
// have no `requires`.

#![tactic(auto)]

mod metres;
mod plane;

ghost use Rattle.std.specs.Prelude.{ℕ, ◌<◌};

pub use metres::millimetres;
use plane::{Ring, Spot};

const FEWEST_VERTICES: usize = 3;

const MOST_VERTICES: usize = 2048;

// The middle of the grid, and its least corner for the point that is the middle: an origin must differ from the point.
const ORIGIN: Spot = Spot {
    x: 1_000_000_000,
    y: 1_000_000_000,
};

const OTHER_ORIGIN: Spot = Spot { x: 0, y: 0 };

// The lowest and the highest index of the corners that are a point, or of the sides that hold it.
#[derive(Clone, Copy, PartialEq, Eq)]
pub enum Met {
    Corners(usize, usize),
    Sides(usize, usize),
}

#[derive(Clone, Copy, PartialEq, Eq)]
pub enum Where {
    On(Met),
    // How many times the ring goes round the point, and whether it does so clockwise.
    Away { times: u32, backwards: bool },
}

// Why there is no answer, by the refusal's number.
#[derive(Clone, Copy, PartialEq, Eq)]
pub enum Refused {
    NoRing = 4,
    // A coordinate beyond the grid, or, for metres, millimetres beyond it once rounded.
    BeyondGrid = 5,
    // A NaN or an infinity.
    NotFinite = 18,
}

impl Refused {
    pub fn number(self) -> usize {
        self as usize
    }
}

// How often the ring goes round a point, in half turns, by direction.
#[derive(Clone, Copy)]
struct HalfTurns {
    forward: u32,
    backward: u32,
}

// Where (x, y) lies against the ring x0, y0, x1, y1, .. Corners come before sides: where one is the point no side is named.
pub fn locate(ring: &[i32], x: i32, y: i32) -> Result<Where, Refused> {
    let n = ring.len() / 2;
    if (ring.len() % 2 == 1) | (n < FEWEST_VERTICES) | (MOST_VERTICES < n) {
        return Err(Refused::NoRing);
    }
    if !(ring.iter().all(|z| plane::on_grid(*z)) & plane::on_grid(x) & plane::on_grid(y)) {
        return Err(Refused::BeyondGrid);
    }
    Ok(against(&Ring { numbers: ring, n }, Spot::at(x, y)))
}

fn against(ring: &Ring, r: Spot) -> Where {
    if let Some((lowest, highest)) = span(ring.n, |i| ring.corner(i) == r) {
        return Where::On(Met::Corners(lowest, highest));
    }
    if let Some((lowest, highest)) = span(ring.n, |i| ring.side(i).holds(r)) {
        return Where::On(Met::Sides(lowest, highest));
    }
    turns(scores(ring, r))
}

// The lowest and the highest index below n that is met. One loop for both: what a closure asks over a range from its end is not proved yet.
fn span<F: Fn(usize) -> bool>(n: usize, is_met: F) -> Option<(usize, usize)>
    requires { (i : ℕ) → i < n → F.pre is_met i }
{
    let mut met = None;
    for i in 0..n {
        if is_met(i) {
            let (lowest, _) = met.unwrap_or((i, i));
            met = Some((lowest, i));
        }
    }
    met
}

fn origin_for(r: Spot) -> Spot {
    if r == ORIGIN { OTHER_ORIGIN } else { ORIGIN }
}

// The scores of all triangles from the origin. A clockwise triangle is its own mirror's counterclockwise one.
fn scores(ring: &Ring, r: Spot) -> HalfTurns {
    let o = origin_for(r);
    let mut forward = 0;
    let mut backward = 0;
    for i in 0..ring.n {
        let e = ring.side(i);
        forward += plane::score(o, e.from, e.to, r);
        backward += plane::score(o, e.to, e.from, r);
    }
    HalfTurns { forward, backward }
}

fn turns(s: HalfTurns) -> Where {
    Where::Away {
        times: s.forward.abs_diff(s.backward) / 2,
        backwards: s.forward < s.backward,
    }
}
