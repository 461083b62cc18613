// The shares of all farms, and of one.
ghost use Rattle.std.specs.Prelude.{◌≡◌, ℕ, ◌/◌, ◌<◌, length};
ghost use Rattle.std.specs.Result.{result_err};
ghost use Rattle.line.specs.Held.{held};
ghost use Rattle.line.specs.Line.{users};
ghost use Rattle.share.specs.Answer.{at, shares_refused, farm_refused, SharesAnswer, ShareAnswer};
ghost use Rattle.share.specs.Asked.{Asked};
ghost use Rattle.share.specs.Scale.{scaled};
ghost use Rattle.share.specs.Weight.{once};

use crate::year::Year;
use line::line::Line;
use line::names::{Farm, Part};
use line::refusal::{Lent, Refusal};
use number::fraction::Fraction;

impl Year<'_, '_> {
    // Writes each farm's share, times the scale: part by part, each of its users pays the same.
    fn add_up(&self, scale: u64, row: &mut [u64])
        requires asked { Asked (held self.now.line.now) self.now.costs.now scale }
        requires room { length row.old ≡ self.now.line.now.size.farms }
        ensures { (i : ℕ) → i < self.now.line.now.size.farms → at row.new i ≡ scaled (held self.now.line.now) (once (held self.now.line.now)) (λ e. scale / users (held self.now.line.now) e) (at self.now.costs.now) i }
    {
        row.fill(0);
        for (e, cost) in (0..self.line.size.parts).zip(self.costs) {
            let each = scale / self.line.users(Part(e)) * cost;
            for (i, due) in row.iter_mut().enumerate() {
                if self.line.uses(Farm(i as u16), Part(e)) {
                    *due += each;
                }
            }
        }
    }

    // What one farm pays, times the scale.
    fn due_of(&self, scale: u64, farm: Farm) -> u64
        requires asked { Asked (held self.now.line.now) self.now.costs.now scale }
        requires member { farm.0 < self.now.line.now.size.farms }
        ensures { result ≡ scaled (held self.now.line.now) (once (held self.now.line.now)) (λ e. scale / users (held self.now.line.now) e) (at self.now.costs.now) farm.0 }
    {
        // not a chain that ends in `sum`: tried, and it stayed open that each product fits where a closure makes it
        let mut due = 0;
        for (e, cost) in (0..self.line.size.parts).zip(self.costs) {
            if self.line.uses(farm, Part(e)) {
                due += scale / self.line.users(Part(e)) * cost;
            }
        }
        due
    }
}

// The shares of all farms, over the least scale if it is below the limit; the row has a number for each farm.
pub fn shares(line: &Line, costs: &[u64], row: &mut [u64]) -> Result<Option<u64>, Refusal>
    ensures refused { result_err result ≡ shares_refused (held line.now) costs.now (length row.old) }
    ensures answer { SharesAnswer (held line.now) costs.now row.old row.new result }
{
    if row.len() < line.size.farms as usize {
        return Err(Refusal::Short(Lent::Accounts));
    }
    let year = Year::new(line, costs)?;
    year.check_large()?;
    let Some(scale) = year.scale() else {
        return Ok(None);
    };
    year.add_up(scale, &mut row[..line.size.farms as usize]);
    Ok(Some(scale))
}

// The share of one farm as a fraction in lowest terms, if the least scale of all farms' shares is below the limit.
pub fn share_of(line: &Line, costs: &[u64], farm: Farm) -> Result<Option<Fraction>, Refusal>
    ensures refused { result_err result ≡ farm_refused (held line.now) costs.now farm.0 }
    ensures answer { ShareAnswer (held line.now) costs.now farm.0 result }
{
    let year = Year::new(line, costs)?;
    year.check_farm(farm)?;
    let Some(scale) = year.scale() else {
        return Ok(None);
    };
    Ok(Fraction::new(year.due_of(scale, farm), scale))
}
