// A year's costs, split in whole cents.
#![tactic(auto)]

pub mod costs;
pub mod limits;
mod payers;
pub mod theorems;
