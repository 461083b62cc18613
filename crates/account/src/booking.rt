// What can be booked, and how a booking is answered.
use line::names::{Farm, Part};
use line::refusal::Refusal;
use number::cents::Cents;

// A booking. specs/Booking gives each kind its number.
#[derive(Clone, Copy, PartialEq, Eq, Debug)]
pub enum Booking {
    // A part has cost something.
    Cost(Part, Cents),
    // A farm has paid something in.
    Payment(Farm, Cents),
    // The year is closed.
    Closing,
}

// What is done by a booking that is taken.
#[derive(Clone, Copy, PartialEq, Eq, Debug)]
pub enum Done {
    // The cost or the payment is booked.
    Booked,
    // The year is closed: what all farms were booked together.
    Closed(Cents),
}

// How a booking is answered: what is done, or why nothing is booked.
pub type Answer = Result<Done, Refusal>;
