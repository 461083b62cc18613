// Costs that are refused.
ghost use Rattle.std.specs.Prelude.{◌≡◌, ◌≤◌, length};
ghost use Rattle.std.specs.Result.{result_err};
ghost use Rattle.share.specs.Answer.{few_refused, large_refused, costs_refused};

use line::limits::COSTS_END;
use line::refusal::{Lent, Refusal};
use number::search::first_from;

// Refuses the first of so many parts whose cost is too large.
pub(crate) fn check_large(costs: &[u64], parts: u16) -> Result<(), Refusal>
    requires { parts ≤ length costs.now }
    ensures { result_err result ≡ large_refused parts costs.now }
{
    match first_from(&costs[..parts as usize], COSTS_END) {
        Some(part) => Err(Refusal::Amount(part)),
        None => Ok(()),
    }
}

// Refuses fewer costs than so many parts have.
pub fn check_enough(costs: &[u64], parts: u16) -> Result<(), Refusal>
    ensures { result_err result ≡ few_refused parts costs.now }
{
    if costs.len() < parts as usize {
        return Err(Refusal::Short(Lent::Costs));
    }
    Ok(())
}

// Refuses the costs of so many parts: there are too few, or one is too large.
pub fn check_costs(costs: &[u64], parts: u16) -> Result<(), Refusal>
    ensures { result_err result ≡ costs_refused parts costs.now }
{
    check_enough(costs, parts)?;
    check_large(costs, parts)
}
