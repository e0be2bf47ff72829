// Standard input and output. A call that would block is made again after a wait, and one that a signal interrupted at once. Where a call fails
// otherwise the reason is said on standard error: a sentence that whoever runs the program goes by.
ghost use Rattle.std.specs.Prelude.{◌≤◌, length, IfOk};
ghost use Rattle.launchramp.specs.Held.{Brought};

use std::io::{self, ErrorKind, Read};
use std::rt::Runtime;
use std::thread;
use std::time::Duration;

// A proved loop has to end, and nothing says that the input does, or that what a call waits for comes: tries and turns are counted down from a
// number that no run uses up. It is 22,000 years of waits, or 64 tebibytes that come byte by byte.
pub const TRIES: usize = 70_368_744_177_664;

const WAIT_MILLISECONDS: u64 = 10;

// What std puts behind the system's words for an error, with its number; it is not said.
const NUMBERED: &str = " (os error ";

// What a read brought. A failed read is no `Err`: its reason was said already, and the program goes on to its end from it as from the others.
#[derive(Clone, Copy)]
pub enum Filled {
    // The buffer's bytes go to here, and more may come.
    To(usize),
    // Nothing, and nothing more comes.
    AtEnd,
    // The input can't be read.
    Failed,
}

// The system's words alone.
fn reason(text: &str) -> &str {
    match text.split_once(NUMBERED) {
        Some((before, _)) => before,
        None => text,
    }
}

// Says the sentence on standard error, with the reason as the system words it; without it where there is no memory for those words.
fn say<R: Runtime>(rt: &R, sentence: &str, error: io::Error) -> io::Result<()> {
    match format!(in rt.alloc(); "{error}") {
        Ok(text) => {
            let words = reason(text.as_str());
            eprintln!(rt; "{sentence}: {words}")
        }
        Err(_) => eprintln!(rt; "{sentence}"),
    }
}

// Whether the call that failed with this error is to be made again; if not, the sentence is said with the reason.
fn is_tried_again<R: Runtime>(rt: &R, error: io::Error, sentence: &str) -> bool {
    match error.kind() {
        ErrorKind::WouldBlock => {
            thread::sleep(rt, Duration::from_millis(WAIT_MILLISECONDS));
            true
        }
        ErrorKind::Interrupted => true,
        _ => {
            let _ = say(rt, sentence, error);
            false
        }
    }
}

// Reads once behind the first n bytes.
pub fn read_behind<R: Runtime>(rt: &R, input: &mut [u8], n: usize) -> Filled
    requires { n ≤ length input.old }
    ensures { Brought n result input.old input.new }
{
    match rt.reader().read(&mut input[n..]) {
        Ok(0) => Filled::AtEnd,
        Ok(more) => Filled::To(n + more),
        Err(error) => {
            if is_tried_again(rt, error, "launchramp: the input could not be read") {
                Filled::To(n)
            } else {
                Filled::Failed
            }
        }
    }
}

// Writes some of the text, and answers how much; a write that takes nothing has failed.
fn write_some<R: Runtime>(rt: &R, text: &[u8]) -> io::Result<usize>
    ensures { IfOk result (λ n. n ≤ length text.now) }
{
    let put = rt.write_some(text)?;
    if put == 0 {
        return Err(io::Error::from(ErrorKind::WriteZero));
    }
    Ok(put)
}

// Writes all of the text, going on where a write stopped, and answers whether it could.
pub fn written<R: Runtime>(rt: &R, text: &[u8]) -> bool {
    let mut left = text;
    for _ in 0..TRIES {
        if left.is_empty() {
            break;
        }
        match write_some(rt, left) {
            Ok(put) => left = &left[put..],
            Err(error) => {
                if !is_tried_again(rt, error, "launchramp: the output could not be written") {
                    return false;
                }
            }
        }
    }
    left.is_empty()
}
