// The store and the runs of a well-formed register.
ghost use Rattle.districts.specs.Lent.{GoodRuns};

use crate::Runs;
use ring::Columns;

#[derive(Clone, Copy)]
pub struct Store<'a> {
    pub sx: &'a [i32],
    pub sy: &'a [i32],
    pub runs: Runs<'a>,
    ghost good: { GoodRuns sx.now sy.now runs.list.now },
}

impl<'a> Store<'a> {
    ghost use Rattle.std.specs.Prelude.{◌<◌};
    ghost use Rattle.districts.specs.Held.{district_of, Holds};

    // The ring of number d, if it is used.
    pub fn ring(&self, d: usize) -> Option<Columns<'a>>
        requires { d < 64 }
        ensures { Holds result (district_of self.now d) }
    {
        let n = self.runs.size(d);
        if n == 0 {
            return None;
        }
        let from = self.runs.first_place(d);
        let to = from + n;
        Some(Columns {
            xs: &self.sx[from..to],
            ys: &self.sy[from..to],
        })
    }
}
