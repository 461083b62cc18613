// How large things may become: specs/Limits states the same, and nothing else knows these numbers.

// The most farms that a line has.
pub const MOST_FARMS: u16 = 400;

// The most parts that a line has.
pub const MOST_PARTS: u16 = 900;

// A part's costs of a year stay below this many cents.
pub const COSTS_END: u64 = 1_000_000_000_000;
