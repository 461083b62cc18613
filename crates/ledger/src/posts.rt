// Costs and payments.
ghost use Rattle.std.specs.Prelude.{◌≡◌, ◌+◌, ◌<◌, ◌&&◌, IsSome, IsSomeAnd, nat_lt};
ghost use Rattle.line.specs.Limits.{costs_end};
ghost use Rattle.account.specs.Range.{bookable};
ghost use Rattle.account.specs.declared.booking.Booking.TheVariants.{Cost, Payment};
ghost use Rattle.ledger.specs.Held.{held, balance_of, IsHolder, Left};
ghost use Rattle.ledger.specs.Posted.{Posted};

use crate::ledger::Ledger;
use crate::open::account_place;
use account::balance::Balance;
use account::booking::{Answer, Done};
use account::limits::BOOKING_MOST;
use line::limits::COSTS_END;
use line::names::{Farm, Part};
use line::refusal::{Holder, Refusal};
use number::cents::Cents;

// Whether so many cents may be booked.
#[tactic(auto, unfolding(account::specs::Range::bookable, account::specs::Limits::booking_most))]
fn is_bookable(cents: Cents) -> bool
    ensures { result ≡ bookable cents.0 }
{
    cents.0 > 0 && cents.0 <= BOOKING_MOST
}

// Whether so many cents may be booked as a cost of a part that has cost so much this year.
#[tactic(auto, unfolding(account::specs::Range::bookable, account::specs::Limits::booking_most, line::specs::Limits::costs_end))]
fn is_cost(before: u64, cents: Cents) -> bool
    requires { before < costs_end }
    ensures { result ≡ (bookable cents.0 && nat_lt (before + cents.0) costs_end) }
{
    is_bookable(cents) && before + cents.0 < COSTS_END
}

impl Ledger<'_, '_, '_> {
    // The balance of the account of a holder that there is.
    fn kept(&self, whose: Holder) -> Balance
        requires { IsHolder self.now.line.now.size.farms whose }
        ensures { result.cents ≡ balance_of (held self.now) whose }
    {
        let at = account_place(self.line.size.farms, whose);
        Balance::of_word(self.accounts[at]).unwrap()
    }

    // The balance of a holder's account: None only if there is no such farm.
    pub fn balance(&self, whose: Holder) -> Option<Balance>
        ensures some { IsHolder self.now.line.now.size.farms whose → IsSomeAnd result (λ b. b.cents ≡ balance_of (held self.now) whose) }
        ensures none { IsSome result → IsHolder self.now.line.now.size.farms whose }
    {
        match whose {
            Holder::Farm(farm) if farm.0 >= self.line.size.farms => None,
            _ => Some(self.kept(whose)),
        }
    }

    // Books a cost: it is added to the part's, and taken from the cooperative's account.
    #[tactic(auto, unfolding(posting::specs::Posting::refused, posting::specs::Posting::post))]
    pub(crate) fn book_cost(&mut self, at: usize, part: Part, cents: Cents) -> Answer
        ensures posted { Posted at (held self.old) (Cost part cents) (held self.new) result }
        ensures left { Left self.old self.new }
    {
        if part.0 >= self.line.size.parts {
            return Err(Refusal::Unknown(at));
        }
        let e = part.0 as usize;
        if !is_cost(self.costs[e], cents) {
            return Err(Refusal::Amount(at));
        }
        let whose = Holder::Cooperative;
        let Some(balance) = self.kept(whose).minus(cents) else {
            return Err(Refusal::Account { at, whose });
        };
        self.accounts[self.line.size.farms as usize] = balance.word();
        self.costs[e] += cents.0;
        Ok(Done::Booked)
    }

    // Books a payment: it goes into the farm's account. It ends as a cost does but for the sign and the part's costs, and a function for both ends would take as many lines to call.
    #[tactic(auto, unfolding(posting::specs::Posting::refused, posting::specs::Posting::post))]
    pub(crate) fn book_payment(&mut self, at: usize, farm: Farm, cents: Cents) -> Answer
        ensures posted { Posted at (held self.old) (Payment farm cents) (held self.new) result }
        ensures left { Left self.old self.new }
    {
        if farm.0 >= self.line.size.farms {
            return Err(Refusal::Unknown(at));
        }
        if !is_bookable(cents) {
            return Err(Refusal::Amount(at));
        }
        let i = farm.0 as usize;
        let whose = Holder::Farm(farm);
        let Some(balance) = self.kept(whose).plus(cents) else {
            return Err(Refusal::Account { at, whose });
        };
        self.accounts[i] = balance.word();
        Ok(Done::Booked)
    }
}
