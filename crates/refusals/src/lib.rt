// Why a call is refused: one enum for all calls, and the rules' number of each. Which refusal comes first is told by the calls' tables.

#![tactic(auto)]

ghost use Rattle.std.specs.Prelude.{◌≡◌};
ghost use Rattle.refusals.specs.Numbers.{number_of};

#[derive(Clone, Copy, PartialEq, Eq)]
pub enum Refusal {
    NotWellFormed = 1,
    NoOutline = 2,
    OutlineThere = 3,
    // A list of odd length, or fewer than 3 or more than 2,048 vertices; of a path, only the odd length.
    NoRing = 4,
    BeyondGrid = 5,
    BadNumber = 6,
    SameDistrict = 7,
    BadIndex = 8,
    TooFew = 9,
    NoMatch = 10,
    NumbersInUse = 11,
    NoRoom = 12,
    BrokenRecord = 13,
    CountFull = 14,
    NotFinite = 18,
    Missing = 19,
    // A lent list that is too short for the result.
    ListTooShort = 28,
}

impl Refusal {
    // The rules' number.
    pub fn number(self) -> usize
        ensures { result ≡ number_of self }
    {
        self as usize
    }
}
