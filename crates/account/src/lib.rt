// Accounts and what is booked: balances, bookings read from bytes, and how each is answered.
#![tactic(auto)]

pub mod balance;
pub mod booking;
mod kind;
pub mod limits;
pub mod read;
