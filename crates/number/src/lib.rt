// Sums, the first number that passes a test, common divisors and multiples, whole cents, and fractions in lowest terms.
#![tactic(auto)]

pub mod cents;
pub mod divisors;
pub mod fraction;
pub mod laws;
pub mod search;
