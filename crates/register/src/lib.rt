// The register's founding and the assigning of reports, over five lent lists. No public call has a `requires`, but for those whose caller knows the register: lists of
// any length and content are taken, and what is not well-formed is refused. A refused call changes nothing.

#![tactic(auto)]

mod founding;
mod listing;
mod placing;
mod seen;
mod sorting;
mod standing;

use fixes::Fix;
pub use founding::{found, found_known};
pub use listing::{assign_listed, place_listed};
pub use placing::assign_at;
pub use sorting::assign;

// A report's position.
#[derive(Clone, Copy)]
pub enum Position {
    // Whole millimetres.
    Grid(i32, i32),
    // Metres, from a receiver.
    Fix(Fix),
    Missing,
}
