// Money in whole cents.
ghost use Rattle.std.specs.Prelude.{◌≡◌, ◌+◌, ◌^◌, ◌<◌, Some, decimal};

use std::fmt;
use std::ops::{Add, AddAssign};

// An amount of money.
#[derive(Clone, Copy, PartialEq, Eq, Debug)]
pub struct Cents(pub u64);

impl Add<Cents> for Cents {
    type Output = Cents;

    ghost can_add = { λ a b. a.0 + b.0 < 2 ^ 64 };

    ghost add_gives = { λ a b r. r.0 ≡ a.0 + b.0 };

    // Both amounts together.
    fn add(self, other: Cents) -> Cents {
        Cents(self.0 + other.0)
    }
}

impl AddAssign<Cents> for Cents {
    ghost can_add_assign = { λ a b. a.0 + b.0 < 2 ^ 64 };

    ghost add_assign_gives = { λ a b r. r.0 ≡ a.0 + b.0 };

    // Adds the other amount to this one.
    fn add_assign(&mut self, other: Cents) {
        self.0 += other.0;
    }
}

impl fmt::Display for Cents {
    ghost output = { λ x. Some (decimal x.0) };

    // The number of cents, in decimal.
    fn fmt<W: fmt::Write>(&self, f: &mut fmt::Formatter<W>) -> fmt::Result {
        write!(f, "{}", self.0)
    }
}
