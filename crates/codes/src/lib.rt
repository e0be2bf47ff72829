// Answers for programs in other languages, as numbers in lent lists: an answer as a kind and eight values, the tally as a list of counts, the answers to many
// reports one after the other. How an answer is told is in specs/Codes.antt.

#![tactic(auto)]

mod batches;
mod counting;
mod telling;

pub use batches::{assign_all, assign_all_counted};
pub use counting::{Counts, counted};
pub use telling::{Values, assigned, changed, judged, place, placed};
