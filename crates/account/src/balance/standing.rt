// Balances kept in words, and what is paid in and taken out.
ghost use Rattle.std.specs.Prelude.{◌≡◌, pos, ◌+ℤ◌, ◌-ℤ◌, Some};
ghost use Rattle.std.specs.Int.{w64};
ghost use Rattle.std.proofs.Common.{to_z};
ghost use Rattle.std.specs.Fmt.{signed_decimal};
ghost use Rattle.account.specs.Balance.{Standing};

use crate::balance::Balance;
use crate::limits::ACCOUNT_MOST;
use number::cents::Cents;
use std::fmt;

impl Balance {
    // The balance of so many cents: None if it is out of range.
    #[tactic(auto, unfolding(crate::specs::Range::in_range, crate::specs::Limits::account_most))]
    fn of_cents(cents: i64) -> Option<Balance>
        ensures { Standing cents result }
    {
        if (-ACCOUNT_MOST..=ACCOUNT_MOST).contains(&cents) {
            Some(Balance { cents })
        } else {
            None
        }
    }

    // The balance that a word holds, read with its sign: None if it is out of range.
    // (As a `TryFrom<u64>` it would read as the same number, which it is not for a word of 2^63 or more.)
    #[tactic(auto, unfolding(crate::specs::Range::in_range, crate::specs::Limits::account_most))]
    pub fn of_word(word: u64) -> Option<Balance>
        ensures { Standing (to_z w64 word) result }
    {
        Balance::of_cents(word.cast_signed())
    }

    // The word that holds it.
    pub fn word(self) -> u64
        ensures { to_z w64 result ≡ self.cents }
    {
        self.cents.cast_unsigned()
    }

    // The balance after so much is paid in: None if it is out of range.
    #[tactic(auto, using(crate::proofs::Ranges::range_wide))]
    pub fn plus(self, paid: Cents) -> Option<Balance>
        ensures { Standing (self.cents +ℤ pos paid.0) result }
    {
        Balance::of_cents(self.cents.checked_add_unsigned(paid.0)?)
    }

    // The balance after so much is taken out: None if it is out of range.
    #[tactic(auto, using(crate::proofs::Ranges::range_wide))]
    pub fn minus(self, taken: Cents) -> Option<Balance>
        ensures { Standing (self.cents -ℤ pos taken.0) result }
    {
        Balance::of_cents(self.cents.checked_sub_unsigned(taken.0)?)
    }
}

impl fmt::Display for Balance {
    ghost output = { λ b. Some (signed_decimal b.cents) };

    // The cents, in decimal, with a sign where they are below 0.
    fn fmt<W: fmt::Write>(&self, f: &mut fmt::Formatter<W>) -> fmt::Result {
        write!(f, "{}", self.cents)
    }
}
