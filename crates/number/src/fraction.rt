// Fractions of whole numbers in lowest terms.
ghost use Rattle.std.specs.Prelude.{◌^◌, ◌<◌};
ghost use Rattle.number.specs.LowestTerms.{Lowest};

pub mod arithmetic;
pub mod order;
pub mod text;

// A fraction in lowest terms. Both numbers stay below 2 ^ 63, so that the sum of two products of such numbers fits 128 bits.
#[derive(Clone, Copy, PartialEq, Eq, Debug)]
pub struct Fraction {
    top: u64,
    bottom: u64,
    ghost positive: { 0 < bottom },
    ghost small: { (top < 2 ^ 63) × (bottom < 2 ^ 63) },
    ghost lowest: { Lowest top bottom },
}
