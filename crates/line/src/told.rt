// How a refusal is told, by its number and its place, and how the holder of an account.
ghost use Rattle.std.specs.Prelude.{◌≡◌, Some};
ghost use Rattle.line.specs.Refusals.{holder_text, lent_place, number_of, place_of, told};

use crate::refusal::{Holder, Lent, Refusal};
use std::fmt;

impl Lent {
    // Its place among what is lent.
    pub fn place(self) -> usize
        ensures { result ≡ lent_place self }
    {
        self as usize
    }
}

impl Refusal {
    // The number of the case.
    pub fn number(self) -> u8
        ensures { result ≡ number_of self }
    {
        match self {
            Refusal::Length(_) => 1,
            Refusal::Count(_) => 2,
            Refusal::Users(_) => 3,
            Refusal::Kind(_) => 4,
            Refusal::Unknown(_) => 5,
            Refusal::Amount(_) => 6,
            Refusal::Account { .. } => 7,
            Refusal::Short(_) => 8,
            Refusal::Row(_) => 9,
            Refusal::Sum(_) => 10,
        }
    }

    // Where it was found.
    pub fn place(self) -> usize
        ensures { result ≡ place_of self }
    {
        match self {
            Refusal::Account { at, .. } => at,
            Refusal::Short(what) => what.place(),
            Refusal::Length(at)
            | Refusal::Count(at)
            | Refusal::Users(at)
            | Refusal::Kind(at)
            | Refusal::Unknown(at)
            | Refusal::Amount(at)
            | Refusal::Row(at)
            | Refusal::Sum(at) => at,
        }
    }
}

impl fmt::Display for Holder {
    ghost output = { λ h. Some (holder_text h) };

    fn fmt<W: fmt::Write>(&self, f: &mut fmt::Formatter<W>) -> fmt::Result {
        match self {
            Holder::Farm(farm) => write!(f, "farm {}", farm.0),
            Holder::Cooperative => write!(f, "cooperative"),
        }
    }
}

impl std::error::Error for Refusal {}

impl fmt::Display for Refusal {
    ghost output = { λ r. Some (told r) };

    fn fmt<W: fmt::Write>(&self, f: &mut fmt::Formatter<W>) -> fmt::Result {
        write!(f, "refused {} at {}", self.number(), self.place())
    }
}
