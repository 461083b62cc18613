// Lines of farms and parts: who uses which part, read from bytes or refused.
#![tactic(auto)]

pub mod counts;
pub mod limits;
pub mod line;
pub mod names;
pub mod read;
pub mod refusal;
mod row;
pub mod size;
pub mod told;
pub mod write;
