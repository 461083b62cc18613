// What is told of the accounts.
ghost use Rattle.std.specs.Prelude.{◌≡◌, IfOk, string_bytes};
ghost use Rattle.book.specs.Accounts.{opening_text, Told};

use crate::trouble::Trouble;
use line::line::Line;
use line::names::Farm;
use line::refusal::Holder;
use line::size::Size;
use std::alloc::{AllocError, Global};
use std::fmt::Write;

// The accounts of so many farms and of the cooperative before anything is booked, each in a line of text.
fn opening(heap: Global, farms: u16) -> Result<String, AllocError>
    ensures { IfOk result (λ t. string_bytes t ≡ opening_text farms) }
{
    let mut text = String::new(heap);
    for i in 0..farms {
        writeln!(text, "{} 0", Holder::Farm(Farm(i)))?;
    }
    writeln!(text, "{} 0", Holder::Cooperative)?;
    Ok(text)
}

// The accounts of the line that the bytes mean, or why they are not told.
#[tactic(auto, unfolding(line::specs::Limits::most_farms, line::specs::Limits::most_parts))]
pub fn accounts(heap: Global, line: &[u8]) -> Result<String, Trouble>
    ensures { Told line.now result }
{
    // as many as the largest line takes, so that none is refused for too few
    let mut words = vec![in heap; 0u64; Size::LARGEST.words()]?;
    let line = Line::read(line, words.as_mut_slice())?;
    Ok(opening(heap, line.size.farms)?)
}
