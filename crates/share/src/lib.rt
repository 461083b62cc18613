// Exact shares of a year's costs.
#![tactic(auto)]

pub mod costs;
pub mod form;
pub mod parts;
mod scale;
pub mod shares;
pub mod theorems;
mod year;
