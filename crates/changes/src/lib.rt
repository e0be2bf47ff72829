// Splitting and merging districts over five lent lists. `split` and `merge` have no `requires`; a refused call changes nothing.

#![tactic(auto)]

mod merging;
mod splitting;

pub use judging::{Cut, Seam};
pub use merging::{merge, merge_known};
pub use splitting::{split, split_known};
