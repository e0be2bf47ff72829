// The five lists of a register as they are lent to a call: of any length and content.
ghost use Rattle.std.specs.Prelude.{◌≡◌, true, List, length};
ghost use Rattle.ring.specs.declared.Point.{Point};
ghost use Rattle.refusals.specs.Verdicts.{verdict, verdict_of};
ghost use Rattle.districts.specs.Lists.{meaning};
ghost use Rattle.districts.specs.Lent.{formed, beginning};
ghost use Rattle.districts.specs.Held.{lists_of, founding_of, changing_of, StoreOf, Known, Begun};

use crate::{Runs, Store, well_formed};
use refusals::Refusal;

// Lent to be read.
#[derive(Clone, Copy)]
pub struct Lists<'a> {
    pub ox: &'a [i32],
    pub oy: &'a [i32],
    pub sx: &'a [i32],
    pub sy: &'a [i32],
    pub runs: &'a [u32],
}

// Lent to be given an outline and a district.
#[derive(Drop)]
pub struct ListsToFound<'a> {
    pub ox: &'a mut [i32],
    pub oy: &'a mut [i32],
    pub sx: &'a mut [i32],
    pub sy: &'a mut [i32],
    pub runs: &'a mut [u32],
}

// Lent to have their districts changed; the outline stays.
#[derive(Drop)]
pub struct ListsToChange<'a> {
    pub ox: &'a [i32],
    pub oy: &'a [i32],
    pub sx: &'a mut [i32],
    pub sy: &'a mut [i32],
    pub runs: &'a mut [u32],
}

// Refusal 1 where the lists are known not to be well-formed, then 2 where there is no outline. It reads the runs alone.
pub fn begins(good: bool, runs: &[u32]) -> Result<(), Refusal>
    requires { good ≡ true → length runs.now ≡ 129 }
    ensures { (outline store : List Point) → verdict_of result ≡ verdict (beginning good (meaning outline store runs.now)) }
{
    if !good {
        return Err(Refusal::NotWellFormed);
    }
    let runs = Runs { list: runs };
    if runs.outline_size() == 0 {
        return Err(Refusal::NoOutline);
    }
    Ok(())
}

impl<'a> Lists<'a> {
    // The store and the runs of lists that are known to be well-formed.
    pub fn store(&self) -> Store<'a>
        requires { formed (lists_of self.now) ≡ true }
        ensures { StoreOf (lists_of self.now) result }
    {
        Store {
            sx: self.sx,
            sy: self.sy,
            runs: Runs { list: self.runs },
        }
    }

    // The same, or refusal 1, where it is known whether they are well-formed.
    pub fn known(&self, good: bool) -> Result<Store<'a>, Refusal>
        requires { good ≡ formed (lists_of self.now) }
        ensures { Known (lists_of self.now) result }
    {
        if !good {
            return Err(Refusal::NotWellFormed);
        }
        Ok(self.store())
    }

    // The same, or refusal 1, or 2 where there is no outline.
    pub fn begun(&self, good: bool) -> Result<Store<'a>, Refusal>
        requires { good ≡ formed (lists_of self.now) }
        ensures { Begun (lists_of self.now) result }
    {
        begins(good, self.runs)?;
        Ok(self.store())
    }

    // The same, of any lists.
    pub fn usable(&self) -> Result<Store<'a>, Refusal>
        ensures { Begun (lists_of self.now) result }
    {
        self.begun(well_formed(self))
    }
}

impl ListsToFound<'_> {
    pub fn read(&self) -> Lists<'_>
        ensures { lists_of result ≡ founding_of self.now }
    {
        Lists {
            ox: &*self.ox,
            oy: &*self.oy,
            sx: &*self.sx,
            sy: &*self.sy,
            runs: &*self.runs,
        }
    }
}

impl ListsToChange<'_> {
    pub fn read(&self) -> Lists<'_>
        ensures { lists_of result ≡ changing_of self.now }
    {
        Lists {
            ox: self.ox,
            oy: self.oy,
            sx: &*self.sx,
            sy: &*self.sy,
            runs: &*self.runs,
        }
    }
}
