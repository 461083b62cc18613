// Who uses a part, and how many do.
ghost use Rattle.std.specs.Prelude.{◌≡◌, ◌*◌, ◌^◌, ◌<◌, length};
ghost use Rattle.number.specs.Sum.{count};
ghost use Rattle.line.specs.Held.{held};
ghost use Rattle.line.specs.Line.{users};
ghost use Rattle.line.specs.Rows.{in_row};

use crate::line::Line;
use crate::names::{Farm, Part};
use crate::row::row_of;

// How many bits of a row are set.
fn count_row(row: &[u64]) -> u64
    requires { length row.now < 2 ^ 16 }
    ensures { result ≡ count (64 * length row.now) (in_row 64 row.now) }
{
    row.iter().map(|word| u64::from(word.count_ones())).sum()
}

// Each asks for the row by itself: through a method that gives it, the split of a year on a dense line took 6 % longer.
impl Line<'_> {
    // Whether the farm uses the part; not, if there is no such farm or part.
    pub fn uses(&self, farm: Farm, part: Part) -> bool
        ensures { result ≡ (held self.now).uses farm.0 part.0 }
    {
        if farm.0 >= self.size.farms || part.0 >= self.size.parts {
            return false;
        }
        let row = row_of(self.words, self.size.row_words(), part.0 as usize);
        row[farm.0 as usize / 64] >> (farm.0 % 64) & 1 == 1
    }

    // How many farms use the part; none, if there is no such part.
    pub fn users(&self, part: Part) -> u64
        ensures { result ≡ users (held self.now) part.0 }
    {
        if part.0 >= self.size.parts {
            return 0;
        }
        count_row(row_of(self.words, self.size.row_words(), part.0 as usize))
    }
}
