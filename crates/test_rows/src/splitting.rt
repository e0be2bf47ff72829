// Splitting: both pieces are built vertex by vertex.
ghost use Rattle.std.specs.Prelude.{◌<◌, ◌≤◌, IfOk};
ghost use Rattle.test_rows.specs.Shape.{most_vertices};

use crate::{FEWEST_VERTICES, Refusal, Row, Rows, row};

impl Rows {
    // The number of the new district, where the numbers and the path are right. Every point of the path comes twice, and so do the
    // vertices i and j.
    fn room_for(&self, whole: &Row, i: usize, j: usize, k: usize) -> Result<usize, Refusal>
        ensures { IfOk result (λ e. e < 64) }
    {
        let shorter = whole.before(j, i).min(whole.before(i, j)) + 1;
        if shorter + k.min(FEWEST_VERTICES) < FEWEST_VERTICES {
            return Err(Refusal::TooFew);
        }
        let e = self.unused().ok_or(Refusal::NumbersInUse)?;
        if self.room() / 2 <= k {
            return Err(Refusal::NoRoom);
        }
        Ok(e)
    }

    fn judged_split(&self, d: usize, i: usize, j: usize, path: &[i32]) -> Result<usize, Refusal>
        ensures { IfOk result (λ e. (d < 64) × (e < 64)) }
    {
        self.founded()?;
        let whole = self.in_use(d).ok_or(Refusal::BadNumber)?;
        if (whole.size <= i) | (whole.size <= j) | (i == j) {
            return Err(Refusal::BadIndex);
        }
        if path.len() % 2 == 1 {
            return Err(Refusal::NoRing);
        }
        if row::some_beyond(path) {
            return Err(Refusal::BeyondGrid);
        }
        self.room_for(whole, i, j, path.len() / 2)
    }

    // Splits district d from vertex i to vertex j along a path; answers the number of the new district. Piece one goes from i forward to
    // j and back along the path, piece two from j forward to i and on along it.
    pub fn split(&mut self, d: usize, i: usize, j: usize, path: &[i32]) -> Result<usize, Refusal> {
        let e = self.judged_split(d, i, j, path)?;
        let whole = &self.districts[d];
        let k = path.len() / 2;
        let mut one = Row::empty();
        one.walk(whole, i, j);
        one.extend(k, |t| row::point(path, k - 1 - t));
        let mut two = Row::empty();
        two.walk(whole, j, i);
        two.extend(k, |t| row::point(path, t));
        self.built = one;
        self.districts[d] = one;
        self.districts[e] = two;
        Ok(e)
    }
}
