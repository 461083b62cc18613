// Why the accounts of a line are not told.
ghost use Rattle.std.specs.Prelude.{◌≡◌};
ghost use Rattle.book.specs.declared.trouble.Trouble.TheVariants.{Refused, Memory};

use line::refusal::Refusal;
use std::alloc::AllocError;
use std::io;
use thiserror::Error;

#[derive(Debug, Drop, Error)]
pub enum Trouble {
    #[error("usage: book LINE BOOKINGS")]
    Usage,
    #[error("book: cannot read the arguments: {0}")]
    Arguments(io::Error),
    #[error("book: cannot read {0:?}: {1}")]
    Unreadable(String, io::Error),
    // this and `Memory` are also why `report` tells nothing of a row, but `book` does not stand on it
    #[error("{0}")]
    Refused(Refusal),
    #[error("book: BOOKINGS must be empty: bookings cannot be booked yet")]
    Bookings,
    #[error("book: cannot write: {0}")]
    Output(io::Error),
    #[error("book: out of memory")]
    Memory,
}

// The two `From`s are by hand, since a derive's says in no contract which case it makes.
impl From<Refusal> for Trouble {
    ghost from_gives = { λ refusal trouble. trouble ≡ Refused refusal };

    fn from(refusal: Refusal) -> Trouble {
        Trouble::Refused(refusal)
    }
}

impl From<AllocError> for Trouble {
    ghost from_gives = { λ _ trouble. trouble ≡ Memory };

    fn from(_why: AllocError) -> Trouble {
        Trouble::Memory
    }
}
