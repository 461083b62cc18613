// How a fraction is written.
ghost use Rattle.std.specs.Prelude.{Some};
ghost use Rattle.number.specs.Reduced.{written};

use crate::fraction::Fraction;
use std::fmt;

impl fmt::Display for Fraction {
    ghost output = { λ x. Some (written x) };

    // As top/bottom, or the top alone if the bottom is 1.
    fn fmt<W: fmt::Write>(&self, f: &mut fmt::Formatter<W>) -> fmt::Result {
        if self.bottom == 1 {
            write!(f, "{}", self.top)
        } else {
            write!(f, "{}/{}", self.top, self.bottom)
        }
    }
}
