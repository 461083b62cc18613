// Why there is nothing to tell of a row.
ghost use Rattle.std.specs.Prelude.{◌≡◌, Some};
ghost use Rattle.report.specs.Untold.{untold_text};
ghost use Rattle.report.specs.declared.untold.Untold.TheVariants.{Refused, OutOfMemory};

use line::refusal::Refusal;
use std::alloc::AllocError;
use std::error::Error;
use std::fmt;

// Why there is no text.
#[derive(Clone, Copy, PartialEq, Eq, Debug)]
pub enum Untold {
    // The line is refused.
    Refused(Refusal),
    // There is no memory left.
    OutOfMemory,
}

// The two `From`s are by hand, since a derive's says in no contract which case it makes.
impl From<Refusal> for Untold {
    ghost from_gives = { λ why u. u ≡ Refused why };

    fn from(why: Refusal) -> Untold {
        Untold::Refused(why)
    }
}

impl From<AllocError> for Untold {
    ghost from_gives = { λ _ u. u ≡ OutOfMemory };

    fn from(_why: AllocError) -> Untold {
        Untold::OutOfMemory
    }
}

// By hand, since no contract knows what a derive writes.
impl fmt::Display for Untold {
    ghost output = { λ u. Some (untold_text u) };

    fn fmt<W: fmt::Write>(&self, f: &mut fmt::Formatter<W>) -> fmt::Result {
        match self {
            Untold::Refused(refusal) => write!(f, "{refusal}"),
            Untold::OutOfMemory => write!(f, "out of memory"),
        }
    }
}

impl Error for Untold {}
