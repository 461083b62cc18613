// One booking, and a row of them.
ghost use Rattle.std.specs.Prelude.{◌≡◌, length};
ghost use Rattle.std.specs.Result.{result_err};
ghost use Rattle.ledger.specs.Held.{held, Left};
ghost use Rattle.ledger.specs.Posted.{Posted};
ghost use Rattle.ledger.specs.Row.{answered, left_by, row_refused, Row};

use crate::ledger::Ledger;
use account::booking::{Answer, Booking};
use account::read::{BOOKING_BYTES, read_booking};
use line::refusal::{Lent, Refusal};

impl Ledger<'_, '_, '_> {
    // Books the booking at a place of a row, or refuses it and changes nothing that was lent.
    pub fn post(&mut self, at: usize, booking: Booking) -> Answer
        ensures posted { Posted at (held self.old) booking (held self.new) result }
        ensures left { Left self.old self.new }
    {
        match booking {
            Booking::Cost(part, cents) => self.book_cost(at, part, cents),
            Booking::Payment(farm, cents) => self.book_payment(at, farm, cents),
            Booking::Closing => self.close(at),
        }
    }

    // Books the booking that stands in seven bytes, at a place of a row. A refusal changes nothing that was lent; other than seven bytes are refused at their number.
    #[tactic(auto, unfolding(account::specs::Booking::reading, crate::specs::Row::answered, crate::specs::Row::left_by))]
    pub fn book(&mut self, at: usize, bytes: &[u8]) -> Answer
        ensures answer { result ≡ answered at (held self.old) bytes.now }
        ensures after { held self.new ≡ left_by (held self.old) bytes.now }
        ensures left { Left self.old self.new }
    {
        let booking = read_booking(at, bytes)?;
        self.post(at, booking)
    }

    // Books a row of bookings, seven bytes each, and writes how each is answered. A refused one changes nothing, and those after it are done;
    // bytes at the end that are no whole booking are refused at the length of the row. Answers past these stay.
    // If fewer answers are lent than the row needs, it is refused, and nothing is booked.
    #[tactic(auto, unfolding(crate::specs::Row::row_refused))]
    pub fn book_row(&mut self, row: &[u8], answers: &mut [Answer]) -> Result<(), Refusal>
        ensures refused { result_err result ≡ row_refused row.now (length answers.old) }
        ensures row { Row (held self.old) row.now answers.old (held self.new) answers.new result }
        ensures left { Left self.old self.new }
    {
        if answers.len() < row.len().div_ceil(BOOKING_BYTES) {
            return Err(Refusal::Short(Lent::Answers));
        }
        // answers are written by number: after a zip with `iter_mut` a proof knows how many there are, and no answer
        for (k, bytes) in row.chunks_exact(BOOKING_BYTES).enumerate() {
            answers[k] = self.book(k, bytes);
        }
        if row.len() % BOOKING_BYTES > 0 {
            answers[row.len() / BOOKING_BYTES] = Err(Refusal::Length(row.len()));
        }
        Ok(())
    }
}
