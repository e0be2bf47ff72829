// Taking the record at the front of a stream's bytes.
ghost use Rattle.records.specs.Layout.{front};
ghost use Rattle.stream.specs.Held.{lists_at, Fit};
ghost use Rattle.stream.specs.Advancing.{AdvancedBy};

use crate::Desk;
use records::Record;
use refusals::Refusal;
use wording::{Kind, Said};

// A record's kind, what was answered, and how many bytes it has.
#[derive(Clone, Copy)]
pub struct Advanced {
    pub kind: Kind,
    pub said: Said,
    pub taken: usize,
}

impl Desk {
    // Applies the record at the front of the bytes, whose coordinates are written to the first places of a list. None where more bytes are needed, and refusal 13 where the
    // record is broken; then nothing changes.
    pub(crate) fn advance(
        &mut self,
        bytes: &[u8],
        coordinates: &mut [i32; 4096],
    ) -> Result<Option<Advanced>, Refusal>
        requires { Fit self.old }
        ensures advanced { AdvancedBy result (front bytes.now) self.old.tally self.new.tally coordinates.old coordinates.new (lists_at self.old) (lists_at self.new) }
        ensures fit { Fit self.new }
    {
        let Some(decoded) = records::decode(bytes, coordinates)? else {
            return Ok(None);
        };
        let taken = decoded.taken;
        let (kind, said) = match decoded.record {
            Record::Outline(n) => (Kind::Outline, self.outline(&coordinates[0..2 * n])),
            Record::Split(cut, k) => (Kind::Split, self.split(cut, &coordinates[0..2 * k])),
            Record::Merge(seam) => (Kind::Merge, self.merge(seam)),
            Record::Report(s) => (Kind::Report(s.number), self.report(s)),
        };
        Ok(Some(Advanced { kind, said, taken }))
    }
}
