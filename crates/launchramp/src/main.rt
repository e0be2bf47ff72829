// The grouping program: reads a record stream from standard input and prints a line for each record and the end line. It is proved to end and to
// be safe, and each turn to be one piece of the stream, so that what it prints is the stream's output (proofs/Whole.antt). How it ended is told by
// one sentence on standard error, or by none where it read and wrote everything.

#![tactic(auto)]

mod ports;

ghost use Rattle.std.specs.Prelude.{◌≡◌, true, None, Some, ◌≤◌, ◌++◌, length};
ghost use Rattle.history.specs.Turns.{Fresh};
ghost use Rattle.tally.specs.Tally.{fresh};
ghost use Rattle.wording.specs.Lines.{room};
ghost use Rattle.stream.specs.declared.printing.Stop.TheVariants.{More};
ghost use Rattle.stream.specs.Desks.{broken_line, last_line};
ghost use Rattle.stream.specs.Held.{lists_at, Fit};
ghost use Rattle.launchramp.specs.Held.{piece, Kept, Onward, Held, Turned, Went, last_text, Opens};

use ports::{Filled, written};
use refusals::Refusal;
use std::rt::Runtime;
use stream::{Desk, Stop};
use tally::Tally;
use wording::{Kind, Said};

// How long the two buffers are: several times the longest record.
const PIECE: usize = 65_536;

// Why nothing more is read.
#[derive(Clone, Copy)]
pub enum Ending {
    // All records of the input were read.
    Whole,
    // A record is broken, or the last one is cut.
    Broken,
    // A read or a write has failed, and that was said.
    Failed,
}

// How many records were read so far. The bytes from `at` to `end` of the buffer are not taken yet.
#[derive(Clone, Copy)]
pub struct Reading {
    pub records: usize,
    pub at: usize,
    pub end: usize,
    pub ended: Option<Ending>,
}

// Keeps what is left in the buffer, and reads more behind it; at the end of the input what is left is a cut record.
fn refilled<R: Runtime>(rt: &R, input: &mut [u8], d: Reading) -> Reading
    requires { Kept d input.old }
    ensures { Onward More d result input.old input.new }
{
    let left = d.end - d.at;
    input.copy_within(d.at..d.end, 0);
    let (end, ended) = match ports::read_behind(rt, input, left) {
        Filled::To(end) => (end, None),
        Filled::AtEnd if left == 0 => (left, Some(Ending::Whole)),
        Filled::AtEnd => (left, Some(Ending::Broken)),
        Filled::Failed => (left, Some(Ending::Failed)),
    };
    Reading {
        at: 0,
        end,
        ended,
        ..d
    }
}

// Writes what was printed, and reads on where another record may follow.
fn follow<R: Runtime>(rt: &R, input: &mut [u8], printed: &[u8], d: Reading, stop: Stop) -> Reading
    requires kept { Kept d input.old }
    requires going { d.ended ≡ None }
    ensures { Onward stop d result input.old input.new }
{
    if !written(rt, printed) {
        return Reading {
            ended: Some(Ending::Failed),
            ..d
        };
    }
    match stop {
        Stop::Full => d,
        Stop::More => refilled(rt, input, d),
        Stop::Broken => Reading {
            ended: Some(Ending::Broken),
            ..d
        },
    }
}

// Prints the records in the buffer, and reads on. The buffers and the desk are lent one by one: only this and `read_all` take them all, and each
// needs a place of its own here.
fn turn<R: Runtime>(
    rt: &R,
    input: &mut [u8],
    output: &mut [u8],
    coordinates: &mut [i32; 4096],
    desk: &mut Desk,
    d: Reading,
) -> Reading
    requires held { Held d input.old }
    requires fit { Fit desk.old }
    ensures turned { Turned d result input.old input.new (lists_at desk.old) desk.old.tally (lists_at desk.new) desk.new.tally }
    ensures fit { Fit desk.new }
{
    let page = desk.print(&input[d.at..d.end], coordinates, output, d.records);
    let progress = page.progress;
    let next = Reading {
        records: progress.records,
        at: d.at + progress.at,
        end: d.end,
        ended: None,
    };
    follow(rt, input, &output[0..progress.filled], next, page.stop)
}

fn read_all<R: Runtime>(
    rt: &R,
    input: &mut [u8],
    output: &mut [u8],
    coordinates: &mut [i32; 4096],
    desk: &mut Desk,
) -> Reading
    requires input_len { length input.old ≡ piece }
    requires fresh { Fresh (lists_at desk.old) }
    requires tally { desk.old.tally ≡ fresh }
    requires fit { Fit desk.old }
    ensures { Went (lists_at desk.old) result input.new (lists_at desk.new) desk.new.tally }
{
    let mut d = Reading {
        records: 0,
        at: 0,
        end: 0,
        ended: None,
    };
    for _ in 0..ports::TRIES {
        if d.ended.is_some() {
            break;
        }
        d = turn(rt, input, output, coordinates, desk, d);
    }
    d
}

fn broken_line(to: &mut [u8], records: usize) -> usize
    requires { room ≤ length to.old }
    ensures { Opens result (broken_line true records) to.new }
{
    wording::line(
        to,
        records,
        Kind::Broken,
        Said::Refused(Refusal::BrokenRecord.number()),
    )
}

fn end_line(to: &mut [u8], records: usize, t: &Tally) -> usize
    requires { room ≤ length to.old }
    ensures { Opens result (last_line records t.now) to.new }
{
    wording::end_line(to, records, t.sum_of_ones(), t.border, t.none, t.several)
}

// The line of a broken record, and the end line behind it.
fn both_lines(to: &mut [u8], records: usize, t: &Tally) -> usize
    requires { length to.old ≡ piece }
    ensures { Opens result (broken_line true records ++ last_line records t.now) to.new }
{
    let n = broken_line(to, records);
    n + end_line(&mut to[n..], records, t)
}

// The lines behind those of the records, and how long they are: none where a read or a write failed.
fn last_lines(to: &mut [u8], d: Reading, t: &Tally) -> usize
    requires { length to.old ≡ piece }
    ensures { Opens result (last_text d.ended d.records t.now) to.new }
{
    match d.ended {
        Some(Ending::Failed) => 0,
        Some(Ending::Broken) => both_lines(to, d.records, t),
        Some(Ending::Whole) | None => end_line(to, d.records, t),
    }
}

// Writes the last lines, and then says that a broken record ended the stream.
fn close<R: Runtime>(rt: &R, to: &mut [u8], d: Reading, t: &Tally)
    requires { length to.old ≡ piece }
{
    let n = last_lines(to, d, t);
    let is_written = written(rt, &to[0..n]);
    if is_written & matches!(d.ended, Some(Ending::Broken)) {
        let _ = eprintln!(rt; "launchramp: a broken record ended the stream");
    }
}

fn main(rt: HostRuntime) {
    let mut input = [0u8; PIECE];
    let mut output = [0u8; PIECE];
    let mut coordinates = [0i32; 4096];
    let mut desk = Desk::new();
    let d = read_all(&rt, &mut input, &mut output, &mut coordinates, &mut desk);
    close(&rt, &mut output, d, &desk.tally);
}
