// Merging: the result is built vertex by vertex.
ghost use Rattle.std.specs.Prelude.{◌<◌, IfOk};

use crate::{FEWEST_VERTICES, Refusal, Row, Rows};

// Whether the vertex t after vertex i of one row is that t before vertex j of the other.
pub fn same(one: &Row, i: usize, other: &Row, j: usize, t: usize) -> bool {
    one.vertex(one.after(i, t)) == other.vertex(other.before(j, t))
}

// The refusals of a merge of two districts in use.
fn common(one: &Row, a: usize, other: &Row, b: usize, k: usize) -> Result<(), Refusal> {
    let (n, m) = (one.size, other.size);
    if (n <= a) | (m <= b) {
        return Err(Refusal::BadIndex);
    }
    if (k == 0) | (n.min(m) <= k) {
        return Err(Refusal::NoMatch);
    }
    if !(0..=k).all(|t| same(one, a, other, b, t)) {
        return Err(Refusal::NoMatch);
    }
    if (n - k) + (m - k) < FEWEST_VERTICES {
        return Err(Refusal::TooFew);
    }
    Ok(())
}

// One ring from the end of the common run round to its start, then the vertices of the other outside the run, if it has any.
fn joined(one: &Row, a: usize, other: &Row, b: usize, k: usize) -> Row {
    let mut made = Row::empty();
    made.walk(one, one.after(a, k), a);
    if k.saturating_add(1) < other.size {
        made.walk(other, other.after(b, 1), other.before(b, k + 1));
    }
    made
}

impl Rows {
    fn judged_merge(
        &self,
        kept: usize,
        a: usize,
        gone: usize,
        b: usize,
        k: usize,
    ) -> Result<Row, Refusal>
        ensures { IfOk result (λ _. (kept < 64) × (gone < 64)) }
    {
        self.founded()?;
        let one = self.in_use(kept).ok_or(Refusal::BadNumber)?;
        let other = self.in_use(gone).ok_or(Refusal::BadNumber)?;
        if kept == gone {
            return Err(Refusal::WithItself);
        }
        common(one, a, other, b, k)?;
        Ok(joined(one, a, other, b, k))
    }

    // Merges `kept` from vertex a with `gone` from vertex b along k edges; answers the kept number.
    pub fn merge(
        &mut self,
        kept: usize,
        a: usize,
        gone: usize,
        b: usize,
        k: usize,
    ) -> Result<usize, Refusal> {
        let made = self.judged_merge(kept, a, gone, b, k)?;
        self.districts[gone] = Row::empty();
        self.districts[kept] = made;
        self.built = made;
        Ok(kept)
    }
}
