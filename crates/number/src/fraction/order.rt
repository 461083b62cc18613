// The order of fractions, by the products of the top of each with the bottom of the other.
ghost use Rattle.std.specs.Prelude.{◌≡◌, IsSomeAnd, refl};
ghost use Rattle.std.specs.Cmp.{partial_order_from_agreeing_total};
ghost use Rattle.std.specs.Ordering.{as_partial_cmp};
ghost use Rattle.number.specs.Reduced.{value, Ordered};
ghost use Rattle.number.specs.Order.{crosswise, crosswise_total, crosswise_ties, OrderOfValues};

use crate::fraction::Fraction;
use std::cmp::Ordering;

// A derive would compare the tops first, and so put 1/2 before 2/5.
impl Ord for Fraction {
    ghost cmp = { crosswise };

    ghost total = { crosswise_total };

    ghost matches_partial_cmp = { λ x y. refl };

    ghost matches_eq = { crosswise_ties };

    // Which of the two is the smaller number.
    fn cmp(&self, other: &Fraction) -> Ordering
        ensures answer { result ≡ crosswise self.now other.now }
        ensures ordered { Ordered (value self.now) (value other.now) result }
    {
        let left = self.top as u128 * other.bottom as u128;
        let right = other.top as u128 * self.bottom as u128;
        left.cmp(&right)
    }
}

impl PartialOrd for Fraction {
    ghost partial_cmp = { as_partial_cmp crosswise };

    ghost laws = { partial_order_from_agreeing_total crosswise crosswise_total (λ x y. refl) crosswise_ties };

    // There is always an answer.
    fn partial_cmp(&self, other: &Fraction) -> Option<Ordering>
        ensures answer { result ≡ as_partial_cmp crosswise self.now other.now }
        ensures ordered { IsSomeAnd result (λ o. Ordered (value self.now) (value other.now) o) }
    {
        Some(self.cmp(other))
    }
}

// The order that is computed, and that `<`, `max` and their like go by, is the order of the values.
pub fn order_stands()
    ensures { OrderOfValues }
{}
