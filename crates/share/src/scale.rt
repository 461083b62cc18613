// The scale over which shares are written.
ghost use Rattle.line.specs.Held.{held};
ghost use Rattle.share.specs.Answer.{at};
ghost use Rattle.share.specs.Least.{ScaleAnswer};

use crate::year::Year;
use line::names::Part;
use number::divisors::lcm_below;

// Shares are written over one scale only where it is below this; specs/Limits states the same.
const SCALE_END: u64 = 4096;

impl Year<'_, '_> {
    // The least common multiple of the numbers of users of the parts that cost something, where it is below the limit.
    pub(crate) fn scale(&self) -> Option<u64>
        ensures { ScaleAnswer (held self.now.line.now) (at self.now.costs.now) result }
    {
        let mut scale = 1;
        for (e, cost) in (0..self.line.size.parts).zip(self.costs) {
            if *cost > 0 {
                scale = lcm_below(scale, self.line.users(Part(e)), SCALE_END)?;
            }
        }
        Some(scale)
    }
}
