// The tally as a list of counts, raised in place.
ghost use Rattle.std.specs.Prelude.{◌≡◌};
ghost use Rattle.districts.specs.Answers.{one, belongs, answer_of};
ghost use Rattle.codes.specs.Counts.{place_of, place_told, Stands, IsPlace, CountedBy, Raises};

use crate::telling::Kind;
use districts::{Class, NUMBERS, Report};
use refusals::Refusal;

// One for each district, then Border, None and Several.
pub type Counts = [u32; 67];

const BORDER: usize = 64;

const NONE: usize = 65;

const SEVERAL: usize = 66;

// A number above 63 has no count.
fn place_of_one(d: usize) -> Option<usize>
    ensures { Stands result (place_of (one d)) }
{
    if d < NUMBERS { Some(d) } else { None }
}

// Where the count of a class stands.
fn place(c: Class) -> Option<usize>
    ensures { Stands result (place_of (belongs c)) }
{
    match c {
        Class::Border(_, _) => Some(BORDER),
        Class::One(d) => place_of_one(d),
        Class::None => Some(NONE),
        Class::Several(_, _) => Some(SEVERAL),
    }
}

// By an answer's kind, which is not that of a refusal, and its first value: numbers of the caller's list, as they are told there.
pub fn place_told(kind: u64, first: u64) -> Option<usize>
    ensures { Stands result (place_told kind first) }
{
    if kind == Kind::One as u64 {
        return place_of_one(first as usize);
    }
    if kind == Kind::Border as u64 {
        return Some(BORDER);
    }
    if kind == Kind::None as u64 {
        return Some(NONE);
    }
    Some(SEVERAL)
}

// Raises the count at a place, or refuses where it is full or there is none; then nothing is raised.
pub fn raise(at: Option<usize>, counts: &mut Counts) -> Result<(), Refusal>
    requires { IsPlace at }
    ensures { Raises at result counts.old counts.new }
{
    let place = at.ok_or(Refusal::CountFull)?;
    counts[place] = counts[place].checked_add(1).ok_or(Refusal::CountFull)?;
    Ok(())
}

// Counts an assigned report, and answers it, or refusal 14 where its count is full. A refusal passes through and is not counted.
pub fn counted(a: Result<Report, Refusal>, counts: &mut Counts) -> Result<Report, Refusal>
    ensures { CountedBy (answer_of a) (answer_of result) counts.old counts.new }
{
    let report = a?;
    raise(place(report.class), counts)?;
    Ok(report)
}
