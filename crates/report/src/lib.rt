// What is told of a line and a row of bookings.
#![tactic(auto)]

pub mod report;
pub mod text;
pub mod untold;
