// One line for a record, and the end line. The methods that write a part of a line require room for the longest such part.
ghost use Rattle.std.specs.Prelude.{◌+◌, ◌≤◌, length};
ghost use Rattle.ring.specs.Locate.{touch_of};
ghost use Rattle.districts.specs.Answers as Answers;
ghost use Rattle.districts.specs.Answers.{belongs};
ghost use Rattle.wording.specs.Text.{Laid};
ghost use Rattle.wording.specs.Putting.{Put};
ghost use Rattle.wording.specs.Lines.{kind_text, touch_text, belongs_text, said_text, line as line_of, end_line, room, Written, kind_of, said_of};

use crate::text::Line;
use crate::{Kind, Said};
use districts::Class;
use ring::Touch;

// How many places a list must have to be lent for a line; no line has as many.
pub const ROOM: usize = 160;

impl Line<'_> {
    // Twenty digits and the longest word: " report ".
    #[tactic(auto, unfolding(crate::specs::Text::ascii))]
    fn kind(&mut self, k: Kind)
        requires { self.old.at + 28 ≤ length self.old.to.now }
        ensures { Put (kind_text (kind_of k)) self.old self.new }
    {
        match k {
            Kind::Outline => self.put(b" outline"),
            Kind::Split => self.put(b" split"),
            Kind::Merge => self.put(b" merge"),
            Kind::Report(r) => self.worded(b" report ", u64::from(r)),
            Kind::Broken => self.put(b" record"),
        }
    }

    // Twice twenty digits, a space and the longer word: " vertex ".
    #[tactic(auto, unfolding(crate::specs::Text::ascii))]
    fn touch(&mut self, t: Touch)
        requires { self.old.at + 49 ≤ length self.old.to.now }
        ensures { Put (touch_text (touch_of t)) self.old self.new }
    {
        match t {
            Touch::Vertex(i, j) => self.paired(b" vertex ", i as u64, j as u64),
            Touch::Edge(i, j) => self.paired(b" edge ", i as u64, j as u64),
        }
    }

    fn border(&mut self, d: usize, t: Touch)
        requires { self.old.at + 77 ≤ length self.old.to.now }
        ensures { Put (belongs_text (Answers.border d (touch_of t))) self.old self.new }
    {
        self.worded(b" border ", d as u64);
        self.touch(t);
    }

    // No class takes more than a border does.
    #[tactic(auto, unfolding(crate::specs::Text::ascii))]
    fn class(&mut self, c: Class)
        requires { self.old.at + 77 ≤ length self.old.to.now }
        ensures { Put (belongs_text (belongs c)) self.old self.new }
    {
        match c {
            Class::Border(d, t) => self.border(d, t),
            Class::One(d) => self.worded(b" one ", d as u64),
            Class::None => self.put(b" none"),
            Class::Several(d, n) => self.paired(b" several ", d as u64, n as u64),
        }
    }

    #[tactic(auto, unfolding(crate::specs::Text::ascii))]
    fn said(&mut self, s: Said)
        requires { self.old.at + 77 ≤ length self.old.to.now }
        ensures { Put (said_text (said_of s)) self.old self.new }
    {
        match s {
            Said::Ok => self.put(b" ok"),
            Said::OkWith(d) => self.worded(b" ok ", d as u64),
            Said::Sorted(c) => self.class(c),
            Said::Refused(n) => self.worded(b" refused ", n as u64),
        }
    }
}

// A record's line from a place on; answers the place behind it.
pub fn line_at(to: &mut [u8], at: usize, n: usize, k: Kind, s: Said) -> usize
    requires { at + room ≤ length to.old }
    ensures { Laid result at (line_of n (kind_of k) (said_of s)) to.old to.new }
{
    let mut line = Line { to, at };
    line.number(n as u64);
    line.kind(k);
    line.said(s);
    line.put(b"\n");
    line.at
}

// A record's line from the first place on.
pub fn line(to: &mut [u8], n: usize, k: Kind, s: Said) -> usize
    ensures { Written result (line_of n (kind_of k) (said_of s)) to.old to.new }
{
    if to.len() < ROOM {
        return 0;
    }
    line_at(to, 0, n, k, s)
}

// The last line: how many records were read, and the tally with its counts of One summed.
pub fn end_line(
    to: &mut [u8],
    records: usize,
    ones: u64,
    border: u32,
    none: u32,
    several: u32,
) -> usize
    ensures { Written result (end_line records ones border none several) to.old to.new }
{
    if to.len() < ROOM {
        return 0;
    }
    let mut line = Line { to, at: 0 };
    line.worded(b"end ", records as u64);
    line.worded(b" one ", ones);
    line.worded(b" border ", u64::from(border));
    line.worded(b" none ", u64::from(none));
    line.worded(b" several ", u64::from(several));
    line.put(b"\n");
    line.at
}
