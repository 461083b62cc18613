// Reading a booking from its bytes.
ghost use Rattle.std.specs.Prelude.{◌≡◌};
ghost use Rattle.account.specs.Booking.{reading, booking, Right};

use crate::booking::Booking;
use crate::kind::Kind;
use line::names::{Farm, Part};
use line::refusal::Refusal;
use number::cents::Cents;

// How many bytes a booking takes.
pub const BOOKING_BYTES: usize = 7;

// The booking of a kind, with the number of a part or farm, and cents.
fn booking_of(kind: u8, number: u16, cents: u32) -> Option<Booking>
    ensures { result ≡ booking kind number cents }
{
    let cents = Cents(u64::from(cents));
    match Kind::try_from(kind).ok()? {
        Kind::Cost => Some(Booking::Cost(Part(number), cents)),
        Kind::Payment => Some(Booking::Payment(Farm(number), cents)),
        Kind::Closing => (number == 0 && cents.0 == 0).then_some(Booking::Closing),
    }
}

// The booking that the bytes at a place of a row mean, or the refusal.
#[tactic(auto, using(crate::proofs::Coding::right), unfolding(crate::specs::Booking::reading, crate::specs::Booking::meant))]
pub fn read_booking(at: usize, bytes: &[u8]) -> Result<Booking, Refusal>
    ensures answer { result ≡ reading at bytes.now }
    ensures right { Right bytes.now }
{
    let [kind, n0, n1, c0, c1, c2, c3] = bytes else {
        return Err(Refusal::Length(bytes.len()));
    };
    let number = u16::from_le_bytes([*n0, *n1]);
    let cents = u32::from_le_bytes([*c0, *c1, *c2, *c3]);
    booking_of(*kind, number, cents).ok_or(Refusal::Kind(at))
}
