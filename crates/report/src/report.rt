// The text that tells how each booking was answered, and the accounts.
ghost use Rattle.std.specs.Prelude.{◌≡◌, ◌++◌, length, IfOk, string_bytes, OnOk};
ghost use Rattle.ledger.specs.Held.{held, balance_of, IsHolder};
ghost use Rattle.report.specs.Report.{answer_text, answers_text, account_text, accounts_text, report_text};

use account::booking::{Answer, Done};
use ledger::ledger::Ledger;
use line::names::Farm;
use line::refusal::Holder;
use std::alloc::{AllocError, Global};
use std::fmt::Write;

// Adds the line of booking k, if its answer is told.
fn push_answer(k: usize, answer: Answer, text: &mut String) -> Result<(), AllocError>
    ensures { OnOk result (string_bytes text.new ≡ string_bytes text.old ++ answer_text k answer) }
{
    match answer {
        Ok(Done::Booked) => Ok(()),
        Ok(Done::Closed(total)) => writeln!(text, "booking {k} closed {total}"),
        Err(refusal) => writeln!(text, "{refusal}"),
    }
}

// The lines of the answers.
#[tactic(auto, unfolding(crate::specs::Report::answers_text))]
fn tell_answers(heap: Global, answers: &[Answer]) -> Result<String, AllocError>
    ensures { IfOk result (λ t. string_bytes t ≡ answers_text answers.now (length answers.now)) }
{
    let mut text = String::new(heap);
    for (k, answer) in answers.iter().enumerate() {
        push_answer(k, *answer, &mut text)?;
    }
    Ok(text)
}

// Adds the line of a holder's account.
fn push_account(ledger: &Ledger, whose: Holder, text: &mut String) -> Result<(), AllocError>
    requires { IsHolder ledger.now.line.now.size.farms whose }
    ensures { OnOk result (string_bytes text.new ≡ string_bytes text.old ++ account_text whose (balance_of (held ledger.now) whose)) }
{
    match ledger.balance(whose) {
        Some(balance) => writeln!(text, "{whose} {balance}"),
        None => Ok(()),
    }
}

// Adds the lines of all farms.
#[tactic(auto, unfolding(crate::specs::Report::accounts_text))]
fn push_accounts(ledger: &Ledger, text: &mut String) -> Result<(), AllocError>
    ensures { OnOk result (string_bytes text.new ≡ string_bytes text.old ++ accounts_text (held ledger.now) ledger.now.line.now.size.farms) }
{
    for i in 0..ledger.line.size.farms {
        push_account(ledger, Holder::Farm(Farm(i)), text)?;
    }
    Ok(())
}

// The answers that are told, in order, then the farms' accounts, then the cooperative's.
pub fn report(heap: Global, ledger: &Ledger, answers: &[Answer]) -> Result<String, AllocError>
    ensures { IfOk result (λ t. string_bytes t ≡ report_text answers.now (held ledger.now)) }
{
    let mut text = tell_answers(heap, answers)?;
    push_accounts(ledger, &mut text)?;
    push_account(ledger, Holder::Cooperative, &mut text)?;
    Ok(text)
}
