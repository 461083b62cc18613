// The greatest common divisor and the least common multiple.
ghost use Rattle.std.specs.Prelude.{ℕ, ◌^◌, ◌<◌, ◌≤◌, MatchOption};
ghost use Rattle.number.specs.Divisors.{Greatest, Least, NoGreater, NoSmaller, OnlyOne, AlwaysOne};

// The greatest common divisor of wide numbers, by Euclid: take the remainder until nothing is left.
pub(crate) fn wide_gcd(a: u128, b: u128) -> u128
    ensures { Greatest a b result }
{
    let mut d = a;
    let mut rest = b;
    while rest != 0 {
        let next = d % rest;
        d = rest;
        rest = next;
    }
    d
}

// The greatest common divisor, which is no wider than the two numbers.
pub fn gcd(a: u64, b: u64) -> u64
    ensures { Greatest a b result }
{
    wide_gcd(a as u128, b as u128) as u64
}

// The least common multiple if it fits 64 bits, and None if it does not.
fn lcm(a: u64, b: u64) -> Option<u64>
    ensures { MatchOption result ((m : ℕ) → Least a b m → 2 ^ 64 ≤ m) (λ m. Least a b m) }
{
    if a == 0 {
        Some(0)
    } else {
        (a / gcd(a, b)).checked_mul(b)
    }
}

// The least common multiple if it is below the bound, and None if it is not.
pub fn lcm_below(a: u64, b: u64, bound: u64) -> Option<u64>
    ensures { MatchOption result ((m : ℕ) → Least a b m → bound ≤ m) (λ m. Least a b m × (m < bound)) }
{
    let m = lcm(a, b)?;
    if m < bound { Some(m) } else { None }
}

// The greatest common divisor and the least common multiple are what their names say, and there is always just one of each.
pub fn divisors_stand()
    ensures { NoGreater × NoSmaller × OnlyOne × AlwaysOne }
{}
