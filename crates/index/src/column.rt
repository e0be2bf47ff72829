// A column of the store, with the runs of all districts in it.
ghost use Rattle.index.specs.Axis.{Held};

use districts::Runs;

#[derive(Clone, Copy)]
pub struct Column<'a> {
    pub numbers: &'a [i32],
    pub runs: Runs<'a>,
    ghost held: { Held numbers.now runs.list.now },
}
