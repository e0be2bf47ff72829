// What is seen of all districts when a report is sorted.
ghost use Rattle.std.specs.Prelude.{◌≡◌, ◌↔◌, IsNone};

use districts::Class;

// The districts that a point winds about: the lowest, and how many.
#[derive(Clone, Copy)]
pub struct Seen {
    pub lowest: Option<usize>,
    pub many: usize,
    ghost counted: { IsNone lowest ↔ (many ≡ 0) },
}

impl Seen {
    ghost use Rattle.std.specs.Prelude.{◌<◌, None};
    ghost use Rattle.districts.specs.Answers.{belongs};
    ghost use Rattle.register.specs.Sorting.{by_count};
    ghost use Rattle.register.specs.Seen.{lowest_of, OneMore};

    pub fn none() -> Self
        ensures { (result.lowest ≡ None) × (result.many ≡ 0) }
    {
        Seen {
            lowest: None,
            many: 0,
        }
    }

    // With one number more, above those that it has.
    pub fn with(self, d: usize) -> Self
        requires { self.many < 64 }
        ensures { OneMore self d result }
    {
        Seen {
            lowest: self.lowest.or(Some(d)),
            many: self.many + 1,
        }
    }

    // The class of a point on no border.
    pub fn class(self) -> Class
        ensures { belongs result ≡ by_count self.many (lowest_of self) }
    {
        match self.lowest {
            None => Class::None,
            Some(d) if self.many == 1 => Class::One(d),
            Some(d) => Class::Several(d, self.many),
        }
    }
}
