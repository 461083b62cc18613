// What bookings do to a ledger, and what is promised of every row of them.
#![tactic(auto)]

pub mod theorems;
