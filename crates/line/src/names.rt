// Farms and parts go by their numbers, from 0: two types, so that neither is taken for the other.

// A farm, by its number.
#[derive(Clone, Copy, PartialEq, Eq, Debug)]
pub struct Farm(pub u16);

// A part of the line, by its number.
#[derive(Clone, Copy, PartialEq, Eq, Debug)]
pub struct Part(pub u16);
