// One farm's use of one part, changed in place, and what that does to the shares of the others.
#![tactic(auto)]

pub mod change;
pub mod theorems;
