// What can be refused. specs/Refusals gives each case its number and its place.
use crate::names::Farm;

// What a caller lends.
#[derive(Clone, Copy, PartialEq, Eq, Debug)]
pub enum Lent {
    // The words or bytes of a line.
    Line,
    // A number for each farm: accounts, counts of odd cents, shares or sums.
    Accounts,
    // A number for each part: its costs.
    Costs,
    // The rows of a sheet, or of a farm's parts.
    Sheet,
    // The answers to a row of bookings.
    Answers,
}

// Whose account or count it is. It is no Option<Farm>, since None would not say the cooperative.
#[derive(Clone, Copy, PartialEq, Eq, Debug)]
pub enum Holder {
    Farm(Farm),
    Cooperative,
}

// Why something is refused. The tests that refuse stand each where its turn is, as one comparison with its own number and place: the rules set their order.
#[derive(Clone, Copy, PartialEq, Eq, Debug)]
pub enum Refusal {
    // Bytes end too early, or go on: their number, or the first too many.
    Length(usize),
    // The number of farms or of parts is out of range: the byte where it stands.
    Count(usize),
    // A part has a bit that is no farm's, or no user, or would have none: the part.
    Users(usize),
    // A booking's kind is unknown, or something stands where zeros belong: the booking.
    Kind(usize),
    // There is no such part or farm: the booking, or the part or farm itself.
    Unknown(usize),
    // Cents are out of range: the booking, or the part whose cost it is.
    Amount(usize),
    // An account or a count is out of range, or would be: the booking, or the farm (the number of farms for the cooperative), and whose it is.
    Account { at: usize, whose: Holder },
    // A slice that was lent is too short: which one.
    Short(Lent),
    // A part's row on a sheet differs: its place among the rows.
    Row(usize),
    // A farm's sum on a sheet differs: the farm.
    Sum(usize),
}
