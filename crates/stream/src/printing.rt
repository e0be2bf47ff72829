// Printing: the records of some bytes are applied one after the other, and their lines written to a lent list, until it is full or there is
// no whole record.
ghost use Rattle.std.specs.Prelude.{◌≡◌, ◌+◌, ◌-◌, ◌<◌, length, drop};
ghost use Rattle.stream.specs.Desks.{desk_of};
ghost use Rattle.stream.specs.Held.{lists_at, Fit};
ghost use Rattle.stream.specs.Printing.{Printed, Stopped, numbers, Ready, TurnedBy};

use crate::Desk;

// Why printing stopped.
#[derive(Clone, Copy)]
pub enum Stop {
    // The lent list has no room for another line.
    Full,
    // What is left is the beginning of a record, or nothing.
    More,
    Broken,
}

// How many bytes were taken and how many places filled, and the number of the next record.
#[derive(Clone, Copy)]
pub struct Progress {
    pub at: usize,
    pub filled: usize,
    pub records: usize,
}

// How far printing came, and why it stopped.
#[derive(Clone, Copy)]
pub struct Page {
    pub progress: Progress,
    pub stop: Stop,
}

impl Desk {
    // Applies one record and writes its line, or tells why not.
    fn print_record(
        &mut self,
        bytes: &[u8],
        coordinates: &mut [i32; 4096],
        to: &mut [u8],
        p: &mut Progress,
    ) -> Option<Stop>
        requires fit { Fit self.old }
        requires ready { Ready bytes.now p.old to.old }
        ensures fit { Fit self.new }
        ensures turned { TurnedBy bytes.now p.old (lists_at self.old) self.old.tally coordinates.old to.old result p.new (lists_at self.new) self.new.tally coordinates.new to.new }
    {
        if to.len() - p.filled < wording::ROOM {
            return Some(Stop::Full);
        }
        match self.advance(&bytes[p.at..], coordinates) {
            Ok(Some(record)) => {
                p.filled = wording::line_at(to, p.filled, p.records, record.kind, record.said);
                p.at += record.taken;
                p.records += 1;
                None
            }
            Ok(None) => Some(Stop::More),
            Err(_) => Some(Stop::Broken),
        }
    }

    // Prints the records of some bytes, the first of them with this number.
    pub fn print(
        &mut self,
        bytes: &[u8],
        coordinates: &mut [i32; 4096],
        to: &mut [u8],
        number: usize,
    ) -> Page
        requires fit { Fit self.old }
        requires countable { number + length bytes.now < numbers }
        ensures fit { Fit self.new }
        ensures printed { Printed bytes.now (desk_of (lists_at self.old) self.old.tally) number coordinates.old to.old result.progress (lists_at self.new) self.new.tally coordinates.new to.new }
        ensures stopped { Stopped result.stop (length to.old - result.progress.filled) (drop result.progress.at bytes.now) }
    {
        let mut progress = Progress {
            at: 0,
            filled: 0,
            records: number,
        };
        loop {
            if let Some(stop) = self.print_record(bytes, coordinates, to, &mut progress) {
                return Page { progress, stop };
            }
        }
    }
}
