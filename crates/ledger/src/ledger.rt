// A ledger over lent memory.
ghost use Rattle.std.specs.Prelude.{length};
ghost use Rattle.ledger.specs.Room.{LentFits};

use line::line::Line;

// The accounts of a cooperative. Each row is lent by itself, as all memory that the libraries below `report` work in; words and bytes past those that are needed are the lender's.
#[derive(Drop)]
pub struct Ledger<'l, 'w, 'a> {
    pub line: &'l mut Line<'w>,
    // The farms' accounts, then the cooperative's: cents with sign, read by `Balance`.
    pub accounts: &'a mut [u64],
    // How many odd cents each farm has paid.
    pub odd: &'a mut [u64],
    // What each part has cost since the last closing.
    pub costs: &'a mut [u64],
    // Room for the sheet of a closing.
    pub sheet: &'a mut [u8],
    ghost fits: { LentFits line.now.size accounts.now odd.now costs.now (length sheet.now) },
}
