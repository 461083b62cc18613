// Opening a ledger.
ghost use Rattle.std.specs.Prelude.{◌≡◌, length, IfOk};
ghost use Rattle.std.specs.Result.{result_err};
ghost use Rattle.line.specs.Held.{held as line_held};
ghost use Rattle.ledger.specs.Held.{state_of, held, place_of};
ghost use Rattle.ledger.specs.Open.{lent_refused, opening, opened_words, Opened, Over};
ghost use Rattle.ledger.specs.Room.{sheet_length};

use crate::closing::whose_off;
use crate::ledger::Ledger;
use line::line::Line;
use line::read::{check_line, read_line};
use line::refusal::{Holder, Lent, Refusal};
use line::size::Size;
use share::costs::{check_costs, check_enough};

// The most bytes that the sheet of a closing takes.
pub fn sheet_bytes(size: Size) -> usize
    ensures { result ≡ sheet_length size.farms size.parts }
{
    let farms = size.farms as usize;
    size.parts as usize * (14 + farms.div_ceil(8)) + farms * 6
}

// Where a holder's account stands: the farms' by their numbers, then the cooperative's.
pub(crate) fn account_place(farms: u16, whose: Holder) -> usize
    ensures { result ≡ place_of farms whose }
{
    match whose {
        Holder::Farm(farm) => farm.0 as usize,
        Holder::Cooperative => farms as usize,
    }
}

// Refuses what is lent for a line of this size if it is too short or out of range. Each row is lent by itself: `Ledger` is what holds them together.
#[tactic(auto, unfolding(crate::specs::Open::lent_refused, share::specs::Answer::costs_refused, share::specs::Answer::few_refused))]
fn check_lent(
    size: Size,
    accounts: &[u64],
    odd: &[u64],
    costs: &[u64],
    sheet: &[u8],
) -> Result<(), Refusal>
    ensures { result_err result ≡ lent_refused size accounts.now odd.now costs.now (length sheet.now) }
{
    let farms = size.farms as usize;
    if accounts.len() < farms + 1 || odd.len() < farms {
        return Err(Refusal::Short(Lent::Accounts));
    }
    check_enough(costs, size.parts)?;
    if sheet.len() < sheet_bytes(size) {
        return Err(Refusal::Short(Lent::Sheet));
    }
    check_costs(costs, size.parts)?;
    match whose_off(accounts, odd, size.farms) {
        Some(whose) => Err(Refusal::Account {
            at: account_place(size.farms, whose),
            whose,
        }),
        None => Ok(()),
    }
}

// Fills lent words with the line that the bytes mean, and answers its size, if all that is lent beside them is long enough and in range:
// then `Ledger` is made of them. A refusal leaves the words as they were, and words past the line's stay in any case: `Ledger::new`, which makes one of a line in one call, cannot say that.
#[tactic(auto, using(crate::proofs::Lending::lent_fine), unfolding(crate::specs::Open::opening, crate::specs::Open::opened_words))]
pub fn open(
    bytes: &[u8],
    words: &mut [u64],
    accounts: &[u64],
    odd: &[u64],
    costs: &[u64],
    sheet: &[u8],
) -> Result<Size, Refusal>
    ensures answer { result ≡ opening bytes.now (length words.old) accounts.now odd.now costs.now (length sheet.now) }
    ensures after { words.new ≡ opened_words bytes.now words.old accounts.now odd.now costs.now (length sheet.now) }
    ensures opened { IfOk result (Opened bytes.now words.new accounts.now odd.now costs.now (length sheet.now)) }
{
    let size = check_line(bytes, words.len())?;
    check_lent(size, accounts, odd, costs, sheet)?;
    read_line(bytes, words)
}

impl<'l, 'w, 'a> Ledger<'l, 'w, 'a> {
    // The ledger over what is lent, if all of it is long enough and in range.
    #[tactic(auto, using(crate::proofs::Lending::lent_fine))]
    pub fn new(
        line: &'l mut Line<'w>,
        accounts: &'a mut [u64],
        odd: &'a mut [u64],
        costs: &'a mut [u64],
        sheet: &'a mut [u8],
    ) -> Result<Ledger<'l, 'w, 'a>, Refusal>
        ensures refused { result_err result ≡ lent_refused line.old.size accounts.old odd.old costs.old (length sheet.old) }
        ensures state { IfOk result (λ g. held g ≡ state_of (line_held line.old) accounts.old odd.old costs.old) }
        ensures lent { IfOk result (Over line.entry accounts.entry odd.entry costs.entry sheet.entry) }
    {
        check_lent(line.size, accounts, odd, costs, sheet)?;
        Ok(Ledger {
            line,
            accounts,
            odd,
            costs,
            sheet,
        })
    }
}
