// The balance of an account.
ghost use Rattle.std.specs.Prelude.{◌≡◌, true};
ghost use Rattle.account.specs.Range.{in_range};

pub mod standing;

// So many cents, owed where they are below 0, and never further from 0 than an account may stand.
#[derive(Clone, Copy, PartialEq, Eq, Debug)]
pub struct Balance {
    cents: i64,
    ghost range: { in_range cents ≡ true },
}
