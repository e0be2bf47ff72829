// Decoding the record at the front of a stream's bytes, by its kind. The places of fields are counted from the record's first byte, as the
// layout lists them. Any other kind is unknown.
ghost use Rattle.std.specs.Prelude.{List, ℤ, length, ◌≤◌, ◌<◌};
ghost use Rattle.records.specs.Layout.{whole, outline_front, split_front, merge_front, grid_front, fix_front, position_front, front};
ghost use Rattle.history.specs.Histories.{reporting};
ghost use Rattle.records.specs.Bytes.{field};
ghost use Rattle.records.specs.Decoding.{Decodes, HasPairs};

use crate::{Decoded, Record, Sighting, fields};
use changes::{Cut, Seam};
use fixes::Fix;
use refusals::Refusal;
use register::Position;

// None where more bytes are needed. Also what never finds a record broken answers it: `decode` hands each answer on as it is.
type Decoding = Result<Option<Decoded>, Refusal>;

// The two bytes that a record starts with.
const FIRST_MARK: u8 = 0x4F;

const SECOND_MARK: u8 = 0x47;

// How many bytes stand before the fields, before the pairs of an outline and of a split, and before the values of a report and of a position;
// how many a pair, a merge and a fix have.
const HEAD: usize = 3;

const OUTLINE_HEAD: usize = 5;

const SPLIT_HEAD: usize = 10;

const REPORT_HEAD: usize = 7;

const POSITION_HEAD: usize = 8;

const PAIR: usize = 8;

const MERGE: usize = 11;

const FIX: usize = 24;

// How many pairs end a record from a place on, once they are all there; their coordinates go to the list. They are announced right before them.
fn pairs(bytes: &[u8], at: usize, to: &mut [i32; 4096]) -> Result<Option<usize>, Refusal>
    requires { (2 ≤ at) × (at < 256) }
    ensures { HasPairs result bytes.now at to.old to.new }
{
    if bytes.len() < at {
        return Ok(None);
    }
    let n = fields::two(bytes, at - 2);
    if ring::MOST_VERTICES < n {
        return Err(Refusal::BrokenRecord);
    }
    if bytes.len() < at + PAIR * n {
        return Ok(None);
    }
    fields::signed_fields(bytes, at, 2 * n, to);
    Ok(Some(n))
}

fn outline(bytes: &[u8], to: &mut [i32; 4096]) -> Decoding
    ensures { Decodes result (outline_front bytes.now) to.old to.new }
{
    let Some(n) = pairs(bytes, OUTLINE_HEAD, to)? else {
        return Ok(None);
    };
    Ok(Some(Decoded {
        record: Record::Outline(n),
        taken: OUTLINE_HEAD + PAIR * n,
    }))
}

fn split(bytes: &[u8], to: &mut [i32; 4096]) -> Decoding
    ensures { Decodes result (split_front bytes.now) to.old to.new }
{
    let Some(k) = pairs(bytes, SPLIT_HEAD, to)? else {
        return Ok(None);
    };
    let cut = Cut {
        d: bytes[HEAD] as usize,
        i: fields::two(bytes, 4),
        j: fields::two(bytes, 6),
    };
    Ok(Some(Decoded {
        record: Record::Split(cut, k),
        taken: SPLIT_HEAD + PAIR * k,
    }))
}

fn merge(bytes: &[u8]) -> Decoding
    ensures { (to : List ℤ) → Decodes result (merge_front bytes.now) to to }
{
    if bytes.len() < MERGE {
        return Ok(None);
    }
    let seam = Seam {
        kept: bytes[HEAD] as usize,
        a: fields::two(bytes, 4),
        gone: bytes[6] as usize,
        b: fields::two(bytes, 7),
        k: fields::two(bytes, 9),
    };
    Ok(Some(Decoded {
        record: Record::Merge(seam),
        taken: MERGE,
    }))
}

// A report of so many bytes.
fn reported(bytes: &[u8], position: Position, taken: usize) -> Decoding
    requires { 7 ≤ length bytes.now }
    ensures { (to : List ℤ) → Decodes result (whole (reporting (field bytes.now 3 4) position) taken) to to }
{
    let number = fields::four(bytes, HEAD);
    Ok(Some(Decoded {
        record: Record::Report(Sighting { number, position }),
        taken,
    }))
}

// A report whose x and y end the record.
fn with_grid(bytes: &[u8], at: usize) -> Decoding
    requires { (7 ≤ at) × (at < 256) }
    ensures { (to : List ℤ) → Decodes result (grid_front bytes.now at) to to }
{
    let taken = at + PAIR;
    if bytes.len() < taken {
        return Ok(None);
    }
    let x = fields::signed(bytes, at);
    let y = fields::signed(bytes, at + 4);
    reported(bytes, Position::Grid(x, y), taken)
}

fn with_fix(bytes: &[u8]) -> Decoding
    ensures { (to : List ℤ) → Decodes result (fix_front bytes.now 8) to to }
{
    if bytes.len() < FIX {
        return Ok(None);
    }
    let easting = fields::double(bytes, POSITION_HEAD);
    let northing = fields::double(bytes, 16);
    reported(bytes, Position::Fix(Fix { easting, northing }), FIX)
}

fn position(bytes: &[u8]) -> Decoding
    ensures { (to : List ℤ) → Decodes result (position_front bytes.now) to to }
{
    if bytes.len() < POSITION_HEAD {
        return Ok(None);
    }
    match bytes[7] {
        0 => reported(bytes, Position::Missing, POSITION_HEAD),
        1 => with_grid(bytes, POSITION_HEAD),
        2 => with_fix(bytes),
        _ => Err(Refusal::BrokenRecord),
    }
}

// The record at the front of the bytes; none where more bytes are needed, and refusal 13 where it is broken. The kinds of records and of positions are the numbers that the
// layout gives them.
pub fn decode(bytes: &[u8], to: &mut [i32; 4096]) -> Result<Option<Decoded>, Refusal>
    ensures { Decodes result (front bytes.now) to.old to.new }
{
    if bytes.len() < HEAD {
        return Ok(None);
    }
    if (bytes[0] != FIRST_MARK) | (bytes[1] != SECOND_MARK) {
        return Err(Refusal::BrokenRecord);
    }
    match bytes[2] {
        1 => outline(bytes, to),
        2 => split(bytes, to),
        3 => merge(bytes),
        4 => with_grid(bytes, REPORT_HEAD),
        5 => position(bytes),
        _ => Err(Refusal::BrokenRecord),
    }
}
