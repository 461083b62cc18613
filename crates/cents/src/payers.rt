// Who pays one cent more of a part.
ghost use Rattle.std.specs.Prelude.{◌≡◌, ℕ, ◌+◌, ◌-◌, ◌^◌, ◌<◌, ◌≤◌, ◌&&◌, ◌||◌, length, ◌==◌, nat_lt};
ghost use Rattle.number.specs.Sum.{one};
ghost use Rattle.line.specs.Held.{held};
ghost use Rattle.share.specs.Answer.{at};
ghost use Rattle.cents.specs.Marking.{fewer, Listed};

use arrayvec::ArrayVec;
use line::limits::MOST_FARMS;
use line::line::Line;
use line::names::{Farm, Part};

// How many farms there may be, as a length.
pub(crate) const MOST: usize = MOST_FARMS as usize;

// Lists how many odd cents each of a part's users has paid, in place of what was listed before.
pub(crate) fn list_counts(line: &Line, part: Part, odd: &[u64], counts: &mut ArrayVec<u64, MOST>)
    requires { line.now.size.farms ≤ length odd.now }
    ensures { Listed (λ i. (held line.now).uses i part.0) (at odd.now) line.now.size.farms counts.new.items }
{
    counts.clear();
    // Over `(0..line.size.farms).zip(odd)` the split of a year took a tenth longer on a dense line, and three tenths on pipes.
    for (i, count) in odd[..line.size.farms as usize].iter().enumerate() {
        if line.uses(Farm(i as u16), part) {
            counts.push(*count);
        }
    }
}

// Who has paid fewer odd cents than the count pays one more, and of those who have paid just as many the first ones, as many as are left.
#[derive(Clone, Copy)]
pub(crate) struct Level {
    pub(crate) count: u64,
    pub(crate) left: usize,
}

// Two numbers that all counts lie between. No more is promised: that they are the least and the greatest makes halving between them short, and changes no answer.
fn spread(counts: &[u64]) -> (u64, u64)
    ensures least { (j : ℕ) → j < length counts.now → result.0 ≤ at counts.now j }
    ensures most { (j : ℕ) → j < length counts.now → at counts.now j ≤ result.1 }
{
    let mut least = u64::MAX;
    let mut most: u64 = 0;
    for count in counts {
        least = least.min(*count);
        most = most.max(*count);
    }
    (least, most)
}

// The level at which so many of those with these counts pay one more, found by halving between the least count and the greatest.
// (The library's `select_nth_unstable` takes three to five times as long where counts stand so that its pivots fall badly.)
pub(crate) fn level_of(counts: &[u64], more: usize) -> Level
    requires some { more < length counts.now }
    requires few { length counts.now < 2 ^ 16 }
    ensures left { result.left + fewer counts.now result.count ≡ more }
    ensures next { more < fewer counts.now (result.count + 1) }
{
    let (mut low, mut high) = spread(counts);
    let mut left = more;
    while low < high {
        // the first number of the upper half
        let upper = low + (high - low) / 2 + 1;
        // how many are below it; as a sum, whose bound `few` gives, since `filter` and `count` take twice as long
        let n: usize = counts.iter().map(|count| usize::from(*count < upper)).sum();
        if n <= more {
            low = upper;
            left = more - n;
        } else {
            high = upper - 1;
        }
    }
    Level { count: low, left }
}

impl Level {
    // 1 for who has paid fewer odd cents than the level, and for who is at it while some are left, else 0. Who is at it takes one of those that are left.
    pub(crate) fn one_more(&mut self, count: u64) -> u64
        ensures more { result ≡ one (nat_lt count self.old.count || (count == self.old.count && nat_lt 0 self.old.left)) }
        ensures count { self.new.count ≡ self.old.count }
        ensures left { self.new.left ≡ self.old.left - one (count == self.old.count) }
    {
        let more = (count < self.count || (count == self.count && self.left > 0)) as u64;
        self.left = self.left.saturating_sub((count == self.count) as usize);
        more
    }
}
