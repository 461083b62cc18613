// What the parts of a line cost in a year.
ghost use Rattle.std.specs.Prelude.{◌≡◌, ◌≤◌, length, IfOk};
ghost use Rattle.std.specs.Result.{result_err};
ghost use Rattle.line.specs.Held.{held};
ghost use Rattle.share.specs.Answer.{few_refused, large_refused, known_refused};

use crate::costs::{check_enough, check_large};
use line::line::Line;
use line::names::Farm;
use line::refusal::Refusal;

// A line, with a cost for each of its parts.
#[derive(Drop)]
pub(crate) struct Year<'y, 'w> {
    pub(crate) line: &'y Line<'w>,
    pub(crate) costs: &'y [u64],
    ghost enough: { line.now.size.parts ≤ length costs.now },
}

impl<'y, 'w> Year<'y, 'w> {
    // Refuses too few costs.
    pub(crate) fn new(line: &'y Line<'w>, costs: &'y [u64]) -> Result<Self, Refusal>
        ensures refused { result_err result ≡ few_refused line.now.size.parts costs.now }
        ensures same { IfOk result (λ year. (year.line.now ≡ line.now) × (year.costs.now ≡ costs.now)) }
    {
        check_enough(costs, line.size.parts)?;
        Ok(Year { line, costs })
    }

    // Refuses the first cost that is too large.
    pub(crate) fn check_large(&self) -> Result<(), Refusal>
        ensures { result_err result ≡ large_refused self.now.line.now.size.parts self.now.costs.now }
    {
        check_large(self.costs, self.line.size.parts)
    }

    // Refuses a farm that is not one of the line's, then the first cost that is too large.
    pub(crate) fn check_farm(&self, farm: Farm) -> Result<(), Refusal>
        ensures { result_err result ≡ known_refused (held self.now.line.now) self.now.costs.now farm.0 }
    {
        if farm.0 >= self.line.size.farms {
            return Err(Refusal::Unknown(farm.0 as usize));
        }
        self.check_large()
    }
}
