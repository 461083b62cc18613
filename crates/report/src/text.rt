// The text for a line and a row of bookings.
ghost use Rattle.report.specs.Told.{Told};

use crate::report::report;
use crate::untold::Untold;
use account::booking::Done;
use account::read::BOOKING_BYTES;
use ledger::ledger::Ledger;
use ledger::open::sheet_bytes;
use line::line::Line;
use line::size::Size;
use std::alloc::Global;

// Books a row on the line that the bytes mean, with nothing booked before, and tells the answers and the accounts; or why the line is refused, or that memory ran out.
pub fn text(heap: Global, bytes: &[u8], row: &[u8]) -> Result<String, Untold>
    ensures { Told bytes.now row.now result }
{
    // each row is lent to the ledger by itself, as memory of the caller's
    let most = Size::LARGEST;
    let mut words = vec![in heap; 0u64; most.words()]?;
    let mut accounts = vec![in heap; 0u64; most.farms as usize + 1]?;
    let mut odd = vec![in heap; 0u64; most.farms as usize]?;
    let mut costs = vec![in heap; 0u64; most.parts as usize]?;
    let mut sheet = vec![in heap; 0u8; sheet_bytes(most)]?;
    let mut answers = vec![in heap; Ok(Done::Booked); row.len().div_ceil(BOOKING_BYTES)]?;
    let mut line = Line::read(bytes, words.as_mut_slice())?;
    let mut ledger = Ledger::new(
        &mut line,
        accounts.as_mut_slice(),
        odd.as_mut_slice(),
        costs.as_mut_slice(),
        sheet.as_mut_slice(),
    )?;
    ledger.book_row(row, answers.as_mut_slice())?;
    Ok(report(heap, &ledger, answers.as_slice())?)
}
