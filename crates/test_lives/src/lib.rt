// Both implementations side by side: one question to the library and to `test_second` and `test_rows`, their answers in one form, whether
// both registers hold the same, and the lives of made registers. Only here the library is called. Proved safe and ending; what came of it
// is in the score, and nothing is printed here.

#![tactic(auto)]

mod answer;
mod asking;
mod compare;
mod lives;
mod registers;
mod score;

pub use answer::{Answer, Both, Kind, Told};
pub use asking::{converted, located};
pub use lives::{Life, all};
pub use registers::Registers;
pub use score::{KINDS, REFUSALS, Score};
