// The closing of a year: computed whole, then tested, then booked.
ghost use Rattle.std.specs.Prelude.{◌≡◌, ℕ, ◌^◌, ◌<◌, ◌≤◌, true, not, ◌||◌, List, length, drop, pos, ◌+ℤ◌, ◌-ℤ◌, neg_ℤ, ◌≤ℤ◌, nat_le, position, zip};
ghost use Rattle.std.specs.Int.{w64};
ghost use Rattle.std.proofs.Common.{to_z};
ghost use Rattle.number.specs.Sum.{sum};
ghost use Rattle.line.specs.Line.{Line};
ghost use Rattle.account.specs.Range.{in_range, account_at};
ghost use Rattle.account.specs.declared.booking.Booking.TheVariants.{Closing};
ghost use Rattle.share.specs.Answer.{at};
ghost use Rattle.cents.specs.Limits.{counts_end};
ghost use Rattle.posting.specs.Posting.{closing_total, booked, out_of_range};
ghost use Rattle.ledger.specs.Held.{state_of, held, cleared, Left};
ghost use Rattle.ledger.specs.Posted.{Posted};
ghost use Rattle.ledger.specs.Room.{AccountsFit, CountsFit};

use crate::ledger::Ledger;
use account::balance::Balance;
use account::booking::{Answer, Done};
use cents::costs::split_parts;
use cents::limits::COUNTS_END;
use line::limits::MOST_FARMS;
use line::names::Farm;
use line::refusal::{Holder, Refusal};
use number::cents::Cents;

// The word of an account after so many cents, in range or not.
fn moved(account: u64, cents: i64) -> u64
    requires range { in_range (to_z w64 account) ≡ true }
    requires low { neg_ℤ (pos (2 ^ 62)) ≤ℤ cents }
    requires high { cents ≤ℤ pos (2 ^ 62) }
    ensures { to_z w64 result ≡ to_z w64 account +ℤ cents }
{
    (account.cast_signed() + cents).cast_unsigned()
}

// Takes each farm's sum from its account, adds them up on the way, puts all sums into the cooperative's, and answers what they come to.
fn settle(sums: &[u64], accounts: &mut [u64]) -> Cents
    requires room { length sums.now < length accounts.old }
    requires fit { AccountsFit (length sums.now) accounts.old }
    requires small { sum (length sums.now) (at sums.now) < 2 ^ 62 }
    ensures total { result.0 ≡ sum (length sums.now) (at sums.now) }
    ensures farms { (i : ℕ) → i < length sums.now → account_at accounts.new i ≡ account_at accounts.old i -ℤ pos (at sums.now i) }
    ensures cooperative { account_at accounts.new (length sums.now) ≡ account_at accounts.old (length sums.now) +ℤ pos (sum (length sums.now) (at sums.now)) }
{
    let mut total: u64 = 0;
    // accounts are written by number: after a zip with `iter_mut` a proof knows how many there are, and no account
    for (i, sum) in sums.iter().enumerate() {
        accounts[i] = moved(accounts[i], -(*sum as i64));
        total += *sum;
    }
    accounts[sums.len()] = moved(accounts[sums.len()], total as i64);
    Cents(total)
}

// Whether an account is out of range.
fn is_out(account: u64) -> bool
    ensures { result ≡ not (in_range (to_z w64 account)) }
{
    Balance::of_word(account).is_none()
}

// Whether a farm's account or its count of odd cents is out of range.
#[tactic(auto, unfolding(cents::specs::Limits::counts_end))]
fn is_off(account: u64, count: u64) -> bool
    ensures { result ≡ (not (in_range (to_z w64 account)) || nat_le counts_end count) }
{
    is_out(account) || count >= COUNTS_END
}

// The first farm whose account or count is out of range.
fn first_off(accounts: &[u64], odd: &[u64]) -> Option<usize>
    ensures { result ≡ position (λ p. not (in_range (to_z w64 p.0)) || nat_le counts_end p.1) (zip accounts.now odd.now) }
{
    accounts
        .iter()
        .zip(odd)
        .position(|(account, count)| is_off(*account, *count))
}

// Whose account or count is out of range: the first farm's that is, and after all farms the cooperative's.
// It takes two rows, since it is asked of what is lent, before there is a ledger, and of what a closing computes.
pub(crate) fn whose_off(accounts: &[u64], odd: &[u64], farms: u16) -> Option<Holder>
    requires accounts { farms < length accounts.now }
    requires odd { farms ≤ length odd.now }
    ensures { (l : Line) (costs : List ℕ) → l.farms ≡ farms → result ≡ out_of_range (state_of l accounts.now odd.now costs) }
{
    let n = farms as usize;
    match first_off(&accounts[..n], odd) {
        Some(i) => Some(Holder::Farm(Farm(i as u16))),
        None => is_out(accounts[n]).then_some(Holder::Cooperative),
    }
}

// Copies the first n numbers of a row to the front of another. It is a function since a proof knows nothing of an array in a struct once it was sliced where it stands. (`cents` copies to and from slices of arrays that stand alone, which need none.)
#[tactic(auto, using(crate::proofs::Rows::front))]
fn copy_front(from: &[u64], to: &mut [u64], n: usize)
    requires lent { n ≤ length from.now }
    requires room { n ≤ length to.old }
    ensures copied { (i : ℕ) → i < n → at to.new i ≡ at from.now i }
    ensures rest { drop n to.new ≡ drop n to.old }
{
    to[..n].copy_from_slice(&from[..n]);
}

// The accounts and the counts of odd cents that a closing would leave, in rows like the ledger's, which are copied as they are.
#[derive(Drop)]
struct Books {
    accounts: [u64; MOST_FARMS as usize + 1],
    odd: [u64; MOST_FARMS as usize],
}

impl Ledger<'_, '_, '_> {
    // What a closing would leave, and what all farms would pay.
    #[tactic(auto, unfolding(line::specs::Limits::most_farms))]
    fn compute(&self) -> (Books, Cents)
        ensures total { result.1.0 ≡ closing_total (held self.now) }
        ensures after { cleared (state_of (held self.now).line result.0.accounts result.0.odd self.now.costs.now) ≡ booked (held self.now) Closing }
    {
        let farms = self.line.size.farms as usize;
        let mut sums = [0; MOST_FARMS as usize];
        let mut books = Books {
            accounts: [0; MOST_FARMS as usize + 1],
            odd: [0; MOST_FARMS as usize],
        };
        copy_front(self.accounts, &mut books.accounts, farms + 1);
        copy_front(self.odd, &mut books.odd, farms);
        split_parts(self.line, self.costs, &mut books.odd, &mut sums);
        let total = settle(&sums[..farms], &mut books.accounts);
        (books, total)
    }

    // Books what a closing leaves: the accounts and counts of all farms, the cooperative's account, and no costs.
    #[tactic(auto, unfolding(line::specs::Limits::most_farms))]
    fn write(&mut self, books: &Books)
        requires accounts_fit { AccountsFit self.old.line.now.size.farms books.now.accounts }
        requires odd_fit { CountsFit self.old.line.now.size.farms books.now.odd }
        ensures after { held self.new ≡ cleared (state_of (held self.old).line books.now.accounts books.now.odd self.old.costs.now) }
        ensures left { Left self.old self.new }
    {
        let farms = self.line.size.farms as usize;
        let parts = self.line.size.parts as usize;
        copy_front(&books.accounts, self.accounts, farms + 1);
        copy_front(&books.odd, self.odd, farms);
        self.costs[..parts].fill(0);
    }

    // Closes the year, or refuses to and books nothing.
    #[tactic(auto, unfolding(line::specs::Limits::most_farms))]
    pub(crate) fn close(&mut self, at: usize) -> Answer
        ensures posted { Posted at (held self.old) Closing (held self.new) result }
        ensures left { Left self.old self.new }
    {
        let (books, total) = self.compute();
        if let Some(whose) = whose_off(&books.accounts, &books.odd, self.line.size.farms) {
            return Err(Refusal::Account { at, whose });
        }
        self.write(&books);
        Ok(Done::Closed(total))
    }
}
