// An index of a register's districts, made once for many reports: along each axis the bounds of each district, and the axis cut into 64 bands, each with a mask of the
// districts that touch it. A district has nothing to say about a point that one of the two axes does not list it for. An index that is kept while the register changes is
// dropped at a change, and made anew where it is needed.

#![tactic(auto)]

mod bands;
mod bounds;
mod column;
mod masks;

ghost use Rattle.std.specs.Prelude.{◌≡◌, ◌<◌, List, ℕ, ℤ};
ghost use Rattle.index.specs.Axis.{OnAxis, Fits, InOrder, within, listed};
ghost use Rattle.index.specs.Both.{Indexed, FitsColumn, NoneUsed};

pub use bands::Axis;
pub use bounds::Bounds;
pub use column::Column;
use districts::{NUMBERS, Store};

// The index along one axis.
#[derive(Clone, Copy)]
pub struct AxisIndex {
    pub bounds: [Bounds; NUMBERS],
    pub axis: Axis,
    pub masks: [u64; bands::BANDS],
}

#[derive(Clone, Copy)]
pub struct Index {
    pub x: AxisIndex,
    pub y: AxisIndex,
}

impl AxisIndex {
    // Of no districts.
    pub fn empty() -> AxisIndex
        ensures { (column : List ℤ) (runs : List ℕ) → NoneUsed runs → Fits column runs result.bounds result.masks result.axis }
    {
        AxisIndex {
            bounds: [Bounds { low: 0, high: 0 }; NUMBERS],
            axis: Axis {
                low: 0,
                high: 0,
                shift: 0,
            },
            masks: [0; bands::BANDS],
        }
    }

    // Makes it that of the districts' x, or of their y, where it stands.
    pub fn fill(&mut self, column: &Column)
        ensures fits { FitsColumn column.now self.new }
        ensures order { InOrder self.new.bounds 64 }
    {
        Bounds::all(&mut self.bounds, column);
        self.axis = bands::spanning(&self.bounds);
        masks::all(&mut self.masks, &self.bounds, column, self.axis);
    }

    // Whether v is within d's bounds.
    pub fn holds(&self, d: usize, v: i32) -> bool
        requires { d < 64 }
        ensures { result ≡ within self.now.bounds d v }
    {
        let bounds = self.bounds[d];
        (bounds.low <= v) & (v <= bounds.high)
    }

    // The districts that may have a run on both sides of v, a bit for each: those of its band, and none where v is not on the axis.
    pub fn listed(&self, v: i32) -> u64
        requires { OnAxis self.now.axis }
        ensures { result ≡ listed self.now.masks self.now.axis v }
    {
        masks::listed(&self.masks, self.axis, v)
    }
}

impl Index {
    // Of a register without districts.
    pub fn empty() -> Index
        ensures { (sx sy : List ℤ) (runs : List ℕ) → NoneUsed runs → Indexed sx sy runs result }
    {
        Index {
            x: AxisIndex::empty(),
            y: AxisIndex::empty(),
        }
    }

    // Makes it that of a register, where it stands: what `of` answers is copied to its place.
    pub fn fill(&mut self, store: &Store)
        ensures indexed { Indexed store.now.sx.now store.now.sy.now store.now.runs.list.now self.new }
        ensures order { InOrder self.new.x.bounds 64 × InOrder self.new.y.bounds 64 }
    {
        let x = Column {
            numbers: store.sx,
            runs: store.runs,
        };
        let y = Column {
            numbers: store.sy,
            runs: store.runs,
        };
        self.x.fill(&x);
        self.y.fill(&y);
    }

    pub fn of(store: &Store) -> Index
        ensures indexed { Indexed store.now.sx.now store.now.sy.now store.now.runs.list.now result }
        ensures order { InOrder result.x.bounds 64 × InOrder result.y.bounds 64 }
    {
        let mut index = Index::empty();
        index.fill(store);
        index
    }
}
