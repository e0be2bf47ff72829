// A record as a call on the register of a desk. After a change the index that was kept fits no more.
ghost use Rattle.std.specs.Prelude.{◌≡◌, true, None};
ghost use Rattle.districts.specs.Lent.{means};
ghost use Rattle.history.specs.Histories.{founding, splitting, merging, reporting};
ghost use Rattle.wording.specs.Lines.{said_of};
ghost use Rattle.stream.specs.Held.{lists_at, Fit};
ghost use Rattle.stream.specs.Replies.{ChangedBy, replied, tallied_by};

use crate::{Desk, saying};
use changes::{Cut, Seam};
use districts::{Lists, ListsToChange, ListsToFound};
use index::Index;
use records::Sighting;
use wording::Said;

impl Desk {
    fn drop_index(&mut self)
        ensures index { self.new.index ≡ None }
        ensures lists { lists_at self.new ≡ lists_at self.old }
        ensures tally { self.new.tally ≡ self.old.tally }
    {
        self.index = None;
    }

    // The caller's list has the points of the outline.
    pub(crate) fn outline(&mut self, ring: &[i32]) -> Said
        ensures changed { ChangedBy (said_of result) (founding ring.now) (lists_at self.old) (lists_at self.new) }
        ensures tally { self.new.tally ≡ self.old.tally }
        ensures fit { Fit self.new }
    {
        let mut lists = ListsToFound {
            ox: &mut self.ox,
            oy: &mut self.oy,
            sx: &mut self.sx,
            sy: &mut self.sy,
            runs: &mut self.runs,
        };
        let answer = register::found_known(true, &mut lists, ring);
        self.drop_index();
        saying::founded(answer)
    }

    pub(crate) fn split(&mut self, cut: Cut, path: &[i32]) -> Said
        ensures changed { ChangedBy (said_of result) (splitting cut.d cut.i cut.j path.now) (lists_at self.old) (lists_at self.new) }
        ensures tally { self.new.tally ≡ self.old.tally }
        ensures fit { Fit self.new }
    {
        let mut lists = ListsToChange {
            ox: &self.ox,
            oy: &self.oy,
            sx: &mut self.sx,
            sy: &mut self.sy,
            runs: &mut self.runs,
        };
        let answer = changes::split_known(true, &mut lists, cut, path);
        self.drop_index();
        saying::changed(answer)
    }

    pub(crate) fn merge(&mut self, seam: Seam) -> Said
        ensures changed { ChangedBy (said_of result) (merging seam.kept seam.a seam.gone seam.b seam.k) (lists_at self.old) (lists_at self.new) }
        ensures tally { self.new.tally ≡ self.old.tally }
        ensures fit { Fit self.new }
    {
        let mut lists = ListsToChange {
            ox: &self.ox,
            oy: &self.oy,
            sx: &mut self.sx,
            sy: &mut self.sy,
            runs: &mut self.runs,
        };
        let answer = changes::merge_known(true, &mut lists, seam);
        self.drop_index();
        saying::changed(answer)
    }

    pub(crate) fn report(&mut self, s: Sighting) -> Said
        requires { Fit self.old }
        ensures told { said_of result ≡ replied true (means (lists_at self.old)) self.old.tally (reporting s.number s.position) }
        ensures tally { self.new.tally ≡ tallied_by true (means (lists_at self.old)) self.old.tally (reporting s.number s.position) }
        ensures lists { lists_at self.new ≡ lists_at self.old }
        ensures fit { Fit self.new }
    {
        let lists = Lists {
            ox: &self.ox,
            oy: &self.oy,
            sx: &self.sx,
            sy: &self.sy,
            runs: &self.runs,
        };
        let store = lists.store();
        // It has a name, because of a closure written within the call the proof would know nothing.
        let make = || Index::of(&store);
        let index = self.index.get_or_insert_with(make);
        let answer = register::assign_listed(&store, index, s.number, s.position);
        saying::assigned(self.tally.count(answer))
    }
}
