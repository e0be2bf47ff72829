// How answers and scores are printed. Whether they could be written is not asked.
use std::fmt;
use std::io::Print;
use test_lives::{Answer, Both, KINDS, Score, Told};
use test_rows::Belongs;
use test_second::{Met, Where};

// The library's answer, and that of the second implementation where they differ in anything.
#[derive(Clone, Copy)]
pub struct Said(pub Both);

impl fmt::Display for Said {
    fn fmt<W: fmt::Write>(&self, f: &mut fmt::Formatter<W>) -> fmt::Result {
        answer(f, self.0.library)?;
        if !self.0.same() {
            f.write_str(" BUT the second says ")?;
            answer(f, self.0.second)?;
        }
        Ok(())
    }
}

fn answer<W: fmt::Write>(f: &mut fmt::Formatter<W>, a: Answer) -> fmt::Result {
    match a {
        Ok(t) => told(f, t),
        Err(refusal) => write!(f, "refused {refusal}"),
    }
}

fn told<W: fmt::Write>(f: &mut fmt::Formatter<W>, t: Told) -> fmt::Result {
    match t {
        Told::Located { place, odd } => located(f, place, odd),
        Told::Placed(x) => write!(f, "millimetre {x}"),
        Told::Founded => f.write_str("ok"),
        Told::Split(d) | Told::Merged(d) => write!(f, "ok {d}"),
        Told::Sorted { belongs, .. } => sorted(f, belongs),
    }
}

fn located<W: fmt::Write>(f: &mut fmt::Formatter<W>, place: Where, odd: bool) -> fmt::Result {
    match place {
        Where::On(met) => on_ring(f, met),
        Where::Away { times, backwards } => {
            let sign = if backwards { "-" } else { "" };
            let parity = if odd { "odd" } else { "even" };
            write!(f, "off {sign}{times} {parity}")
        }
    }
}

fn sorted<W: fmt::Write>(f: &mut fmt::Formatter<W>, belongs: Belongs) -> fmt::Result {
    match belongs {
        Belongs::Border(d, met) => {
            write!(f, "border {d} ")?;
            on_ring(f, met)
        }
        Belongs::One(d) => write!(f, "one {d}"),
        Belongs::None => f.write_str("none"),
        Belongs::Several(d, many) => write!(f, "several {d} {many}"),
    }
}

fn on_ring<W: fmt::Write>(f: &mut fmt::Formatter<W>, met: Met) -> fmt::Result {
    match met {
        Met::Corners(lowest, highest) => write!(f, "vertex {lowest} {highest}"),
        Met::Sides(lowest, highest) => write!(f, "edge {lowest} {highest}"),
    }
}

// What answers are called when they are counted.
const NAMES: [&str; KINDS] = [
    "vertex",
    "vertices",
    "edge",
    "edges",
    "off 0:",
    "off +-1:",
    "off beyond:",
    "founded",
    "splits",
    "merges",
    "border vertex",
    "border vertices",
    "border edge",
    "border edges",
    "one",
    "none",
    "several",
    "placed",
];

fn kinds(rt: &impl Print, counts: &[usize; KINDS]) {
    for (name, n) in NAMES.iter().zip(counts) {
        if 0 < *n {
            let _ = print!(rt; ", {name} {n}");
        }
    }
}

fn refusals(rt: &impl Print, counts: &[usize]) {
    for (number, n) in counts.iter().enumerate() {
        if 0 < *n {
            let _ = print!(rt; ", refused {number}: {n}");
        }
    }
}

pub fn score(rt: &impl Print, name: &str, s: &Score) {
    let _ = print!(rt; "{name:<30} asked {}", s.asked);
    kinds(rt, &s.kinds);
    refusals(rt, &s.refusals);
    let _ = println!(rt; ", differ {}", s.differ);
}
