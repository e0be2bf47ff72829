// The records of a stream. A desk is a register with the tally of its reports: `advance` takes the record at the front of some bytes, which is decoded and made a call on the
// register, and a report's answer is counted; without a whole record it changes nothing. `print` takes one record after the other, as the grouping
// program reads them, and writes their lines. The register of a desk is well-formed from the first record to the last, so no record tests it, and
// reports are sorted by an index that is kept beside it.

#![tactic(auto)]

mod advancing;
mod calling;
mod desk;
mod printing;
mod saying;

pub use advancing::Advanced;
pub use desk::Desk;
pub use printing::{Page, Progress, Stop};
