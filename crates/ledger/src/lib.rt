// The ledger: bookings and closings in the accounts of a cooperative, over lent memory.
#![tactic(auto)]

mod closing;
pub mod ledger;
pub mod open;
mod posts;
pub mod row;
