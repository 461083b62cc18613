// How fractions are made, added and multiplied: exactly, and refused where lowest terms do not fit.
ghost use Rattle.std.specs.Prelude.{◌≡◌, ◌<◌, None};
ghost use Rattle.number.specs.Fraction.{over, ◌⊕◌, times};
ghost use Rattle.number.specs.LowestTerms.{LowestExists, LowestLeast, LowestUnique};
ghost use Rattle.number.specs.Reduced.{value, Fitting, FittingUnique, SameFraction};

use crate::divisors::wide_gcd;
use crate::fraction::Fraction;

// The numbers of a fraction are below this.
const LIMIT: u128 = 1 << 63;

// The fraction top / bottom in lowest terms, if it fits.
fn reduced(top: u128, bottom: u128) -> Option<Fraction>
    requires { 0 < bottom }
    ensures { Fitting (over top bottom) result }
{
    let common = wide_gcd(top, bottom);
    let least_top = top / common;
    let least_bottom = bottom / common;
    if least_top < LIMIT && least_bottom < LIMIT {
        Some(Fraction {
            top: least_top as u64,
            bottom: least_bottom as u64,
        })
    } else {
        None
    }
}

impl Fraction {
    // The fraction top / bottom: None if the bottom is 0, or if it does not fit.
    pub fn new(top: u64, bottom: u64) -> Option<Fraction>
        ensures no_bottom { bottom ≡ 0 → result ≡ None }
        ensures fits { 0 < bottom → Fitting (over top bottom) result }
    {
        if bottom == 0 {
            None
        } else {
            reduced(top as u128, bottom as u128)
        }
    }

    // The number above the line, in lowest terms.
    pub fn top(self) -> u64
        ensures { result ≡ self.top }
    {
        self.top
    }

    // The number below the line, in lowest terms.
    pub fn bottom(self) -> u64
        ensures { result ≡ self.bottom }
    {
        self.bottom
    }

    // The sum: None if it does not fit.
    pub fn add(self, other: Fraction) -> Option<Fraction>
        ensures { Fitting (value self ⊕ value other) result }
    {
        let top = self.top as u128 * other.bottom as u128 + other.top as u128 * self.bottom as u128;
        reduced(top, self.bottom as u128 * other.bottom as u128)
    }

    // This n times: None if it does not fit.
    pub fn times(self, n: u64) -> Option<Fraction>
        ensures { Fitting (times n (value self)) result }
    {
        reduced(n as u128 * self.top as u128, self.bottom as u128)
    }
}

// Every fraction has lowest terms, only one, and no other fraction with its value has smaller numbers;
// fractions of the same value are the same, so that at most one answer fits a value.
pub fn lowest_terms_stand()
    ensures { LowestExists × LowestUnique × LowestLeast × SameFraction × FittingUnique }
{}
