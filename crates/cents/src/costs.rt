// Splitting a year's costs.
ghost use Rattle.std.specs.Prelude.{◌≡◌, ℕ, ◌+◌, ◌^◌, ◌<◌, ◌≤◌, min, length, map};
ghost use Rattle.std.specs.Result.{result_err};
ghost use Rattle.line.specs.Held.{held};
ghost use Rattle.share.specs.Answer.{at};
ghost use Rattle.share.specs.Weight.{once};
ghost use Rattle.cents.specs.Answer.{odds_then, split_refused, Answered};
ghost use Rattle.cents.specs.Asked.{Asked};
ghost use Rattle.cents.specs.Closing.{charged};
ghost use Rattle.cents.specs.Split.{cents, odd_after};

use crate::limits::COUNTS_END;
use crate::payers::{MOST, level_of, list_counts};
use arrayvec::ArrayVec;
use line::line::Line;
use line::names::{Farm, Part};
use line::refusal::{Holder, Lent, Refusal};
use number::search::first_from;
use share::costs::check_costs;

// Splits a part's cost: each user pays the same, and one cent more if it is one of the part's payers. The users' counts are listed in `listed`, whatever stood there.
fn split_part(
    line: &Line,
    part: Part,
    cost: u64,
    odd: &mut [u64],
    sums: &mut [u64],
    listed: &mut ArrayVec<u64, MOST>,
)
    requires part { part.0 < line.now.size.parts }
    requires counts { line.now.size.farms ≤ length odd.old }
    requires cents { line.now.size.farms ≤ length sums.old }
    requires count_room { (i : ℕ) → i < line.now.size.farms → at odd.old i + 1 < 2 ^ 63 }
    requires cent_room { (i : ℕ) → i < line.now.size.farms → at sums.old i + cost + 1 < 2 ^ 63 }
    ensures counts { (i : ℕ) → at odd.new i ≡ odd_after (held line.now) (once (held line.now)) part.0 cost (at odd.old) i }
    ensures cents { (i : ℕ) → at sums.new i ≡ at sums.old i + cents (held line.now) (once (held line.now)) part.0 cost (at odd.old) i }
{
    list_counts(line, part, odd, listed);
    let users = listed.len() as u64;
    let each = cost / users;
    let mut level = level_of(listed.as_slice(), (cost % users) as usize);
    // By the farms' numbers: after a zip of both rows' `iter_mut` a proof knows how long they are, and nothing of what was written.
    for i in 0..line.size.farms {
        if line.uses(Farm(i), part) {
            let more = level.one_more(odd[i as usize]);
            sums[i as usize] += each + more;
            odd[i as usize] += more;
        }
    }
}

// Splits the costs part by part. The line and the two rows go as three arguments, as they are lent.
pub fn split_parts(line: &Line, costs: &[u64], odd: &mut [u64], sums: &mut [u64])
    requires asked { Asked (held line.now) costs.now odd.old }
    requires room { line.now.size.farms ≤ length sums.old }
    requires clear { (i : ℕ) → i < line.now.size.farms → at sums.old i ≡ 0 }
    ensures counts { (i : ℕ) → i < line.now.size.farms → at odd.new i ≡ odds_then (held line.now) costs.now odd.old i }
    ensures cents { (i : ℕ) → i < line.now.size.farms → at sums.new i ≡ charged (held line.now) (once (held line.now)) (at costs.now) (at odd.old) i line.now.size.parts }
    ensures counts_rest { (i : ℕ) → line.now.size.farms ≤ i → at odd.new i ≡ at odd.old i }
    ensures cents_rest { (i : ℕ) → line.now.size.farms ≤ i → at sums.new i ≡ at sums.old i }
{
    // where no part has a cost, the list is not made: to clear it takes as long as such a closing on a tiny line
    if costs[..line.size.parts as usize]
        .iter()
        .all(|cost| *cost == 0)
    {
        return;
    }
    // one list for all parts: making one takes longer than splitting a part with few users
    let mut listed = ArrayVec::new();
    for (e, cost) in (0..line.size.parts).zip(costs) {
        if *cost > 0 {
            split_part(line, Part(e), *cost, odd, sums, &mut listed);
        }
    }
}

// Takes each count that is too large as the end, so that it stays too large.
fn cap(counts: &mut [u64])
    ensures { counts.new ≡ map (λ count. min count COUNTS_END) counts.old }
{
    for count in counts.iter_mut() {
        *count = (*count).min(COUNTS_END);
    }
}

// Splits a year's costs among the users of each part, to the cent: writes what each farm pays, and how many odd cents it has paid then.
// A refusal leaves both as they were; numbers past the farms' stay in any case.
pub fn split_costs(
    line: &Line,
    costs: &[u64],
    odd: &mut [u64],
    sums: &mut [u64],
) -> Result<(), Refusal>
    ensures refused { result_err result ≡ split_refused (held line.now) costs.now odd.old (length sums.old) }
    ensures answer { Answered (held line.now) costs.now odd.old odd.new sums.old sums.new result }
{
    let farms = line.size.farms as usize;
    if odd.len() < farms || sums.len() < farms {
        return Err(Refusal::Short(Lent::Accounts));
    }
    check_costs(costs, line.size.parts)?;
    // zeros for the most farms, of which the front is used: an `ArrayVec` would have to be filled first
    let mut counts = [0; MOST];
    let mut cents = [0; MOST];
    let counts = &mut counts[..farms];
    let cents = &mut cents[..farms];
    counts.copy_from_slice(&odd[..farms]);
    cap(counts);
    split_parts(line, costs, counts, cents);
    if let Some(at) = first_from(counts, COUNTS_END) {
        return Err(Refusal::Account {
            at,
            whose: Holder::Farm(Farm(at as u16)),
        });
    }
    odd[..farms].copy_from_slice(counts);
    sums[..farms].copy_from_slice(cents);
    Ok(())
}
