// A farm's share part by part.
ghost use Rattle.std.specs.Prelude.{◌≡◌, ◌≤◌, length, take, drop};
ghost use Rattle.std.specs.Result.{result_err};
ghost use Rattle.line.specs.Held.{held};
ghost use Rattle.share.specs.Answer.{at, parts_refused, PartsAnswer};
ghost use Rattle.share.specs.Listed.{listed};

use crate::form::PartShare;
use crate::year::Year;
use line::line::Line;
use line::names::{Farm, Part};
use line::refusal::{Lent, Refusal};
use number::cents::Cents;

impl Year<'_, '_> {
    // Lists the parts that a farm uses and that cost something, and answers how many there are.
    fn list_parts(&self, farm: Farm, rows: &mut [PartShare]) -> usize
        requires { self.now.line.now.size.parts ≤ length rows.old }
        ensures front { take result rows.new ≡ listed (held self.now.line.now) (at self.now.costs.now) farm.0 self.now.line.now.size.parts }
        ensures count { result ≡ length (listed (held self.now.line.now) (at self.now.costs.now) farm.0 self.now.line.now.size.parts) }
        ensures rest { drop result rows.new ≡ drop result rows.old }
    {
        // counted by hand: the rows are lent, as all memory here is, and may be more than are written
        let mut k = 0;
        for (e, cost) in (0..self.line.size.parts).zip(self.costs) {
            if *cost > 0 && self.line.uses(farm, Part(e)) {
                rows[k] = PartShare {
                    part: Part(e),
                    cost: Cents(*cost),
                    users: self.line.users(Part(e)),
                };
                k += 1;
            }
        }
        k
    }
}

// The parts that a farm uses and that cost something, by their numbers, at the front of the lent rows; and how many there are.
pub fn part_shares(
    line: &Line,
    costs: &[u64],
    farm: Farm,
    rows: &mut [PartShare],
) -> Result<usize, Refusal>
    ensures refused { result_err result ≡ parts_refused (held line.now) costs.now farm.0 (length rows.old) }
    ensures answer { PartsAnswer (held line.now) costs.now farm.0 rows.old rows.new result }
{
    let year = Year::new(line, costs)?;
    if rows.len() < line.size.parts as usize {
        return Err(Refusal::Short(Lent::Sheet));
    }
    year.check_farm(farm)?;
    Ok(year.list_parts(farm, rows))
}
