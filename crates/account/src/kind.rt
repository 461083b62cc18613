// The kinds of bookings.
ghost use Rattle.account.specs.Kind.{Decodes};

// What a booking is, without the part or farm and the cents.
#[derive(Clone, Copy, PartialEq, Eq, Debug)]
pub(crate) enum Kind {
    Cost,
    Payment,
    Closing,
}

// A number that is no kind's.
#[derive(Clone, Copy, PartialEq, Eq, Debug)]
pub(crate) struct UnknownKind(u8);

impl TryFrom<u8> for Kind {
    type Error = UnknownKind;

    ghost try_from_gives = { Decodes };

    fn try_from(number: u8) -> Result<Kind, UnknownKind> {
        match number {
            1 => Ok(Kind::Cost),
            2 => Ok(Kind::Payment),
            3 => Ok(Kind::Closing),
            _ => Err(UnknownKind(number)),
        }
    }
}
