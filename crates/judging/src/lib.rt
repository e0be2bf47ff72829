// Whether a change of the districts is refused, and why; no function changes a list. The calls for everybody are in `changes`.

#![tactic(auto)]

mod matching;
mod splits;

pub use matching::merge;
pub use splits::{lowest_unused, split, steps};

// Where a district is split: from its vertex i forward to its vertex j.
#[derive(Clone, Copy)]
pub struct Cut {
    pub d: usize,
    pub i: usize,
    pub j: usize,
}

// Two districts that become one: `kept` from its vertex a, with `gone` from its vertex b, along k edges.
#[derive(Clone, Copy)]
pub struct Seam {
    pub kept: usize,
    pub a: usize,
    pub gone: usize,
    pub b: usize,
    pub k: usize,
}
