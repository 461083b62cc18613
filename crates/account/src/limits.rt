// How large accounts and bookings may be: specs/Limits states the same, and nothing else knows these numbers.

// An account is at most this many cents away from 0.
pub const ACCOUNT_MOST: i64 = 1_000_000_000_000;

// The most cents of one booking.
pub const BOOKING_MOST: u64 = 1_000_000_000;
