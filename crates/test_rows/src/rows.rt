// The register: a row for each number and the outline's.
ghost use Rattle.std.specs.Prelude.{◌<◌, ◌≤◌, IfSome};
ghost use Rattle.test_rows.specs.Shape.{most_vertices};

use crate::{FEWEST_VERTICES, MOST_VERTICES, NUMBERS, Refusal, Row, row};

const OUTLINE: usize = 64;

const BUILT: usize = 65;

#[derive(Clone, Copy)]
pub struct Rows {
    pub districts: [Row; NUMBERS],
    pub outline: Row,
    // The ring that was built last. Only its size is asked, by who draws numbers above 63.
    pub(crate) built: Row,
}

impl Rows {
    pub fn new() -> Rows {
        Rows {
            districts: [Row::empty(); NUMBERS],
            outline: Row::empty(),
            built: Row::empty(),
        }
    }

    // How many vertices row d has. The outline and the ring that was built last stand behind the districts.
    pub fn size(&self, d: usize) -> usize
        ensures { result ≤ most_vertices }
    {
        match d {
            OUTLINE => self.outline.size,
            BUILT => self.built.size,
            _ => self.in_use(d).map_or(0, |row| row.size),
        }
    }

    // District d, if that number is in use.
    pub fn in_use(&self, d: usize) -> Option<&Row>
        ensures { IfSome result (λ _. d < 64) }
    {
        self.districts.get(d).filter(|row| !row.is_empty())
    }

    // The lowest unused number.
    pub(crate) fn unused(&self) -> Option<usize>
        ensures { IfSome result (λ d. d < 64) }
    {
        self.districts.iter().position(|row| row.is_empty())
    }

    // How many vertices all districts have.
    fn vertices(&self) -> usize {
        let mut n = 0;
        for row in &self.districts {
            n += row.size;
        }
        n
    }

    // How many more vertices they may have.
    pub fn room(&self) -> usize
        ensures { result ≤ most_vertices }
    {
        MOST_VERTICES.saturating_sub(self.vertices())
    }

    // Refuses all calls but the first while there is no outline.
    pub(crate) fn founded(&self) -> Result<(), Refusal> {
        if self.outline.is_empty() {
            return Err(Refusal::NoOutline);
        }
        Ok(())
    }

    // Stores the outline and makes district 0 with the same ring.
    pub fn found(&mut self, ring: &[i32]) -> Result<(), Refusal> {
        let n = ring.len() / 2;
        if !self.outline.is_empty() {
            return Err(Refusal::OutlineThere);
        }
        if (ring.len() % 2 == 1) | (n < FEWEST_VERTICES) | (MOST_VERTICES < n) {
            return Err(Refusal::NoRing);
        }
        if row::some_beyond(ring) {
            return Err(Refusal::BeyondGrid);
        }
        self.outline = Row::of(ring);
        self.districts[0] = Row::of(ring);
        Ok(())
    }
}
