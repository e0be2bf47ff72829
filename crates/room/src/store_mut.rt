// The store's columns and the runs of a register, lent to be changed.
ghost use Rattle.std.specs.Prelude.{◌≡◌, length};

use districts::Runs;

#[derive(Drop)]
pub struct StoreMut<'a> {
    pub sx: &'a mut [i32],
    pub sy: &'a mut [i32],
    pub runs: &'a mut [u32],
    ghost long: { (length sx.now ≡ 2048) × (length sy.now ≡ 2048) × (length runs.now ≡ 129) },
}

impl StoreMut<'_> {
    pub fn runs(&self) -> Runs<'_>
        ensures { result.list.now ≡ self.now.runs.now }
    {
        Runs { list: &*self.runs }
    }
}
