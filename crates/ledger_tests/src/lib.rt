// Rows of bookings whose outcome is worked out by hand, over memory that is lent longer than needed.
#![tactic(auto)]

#[cfg(test)]
mod tests {
    use account::booking::{Answer, Done};
    use ledger::ledger::Ledger;
    use ledger::open::open;
    use line::line::Line;
    use line::names::Farm;
    use line::refusal::{Holder, Lent, Refusal};
    use line::size::Size;
    use number::cents::Cents;
    use std::process::Abort;
    use std::test::Fail;

    // The line of three farms with the parts {0, 1, 2} and {1, 2}.
    const LINE: [u8; 6] = [3, 0, 2, 0, 7, 6];

    // The bytes of its largest sheet.
    const SHEET: usize = 48;

    const MOST: u64 = 1_000_000_000_000;

    const LAST_COUNT: u64 = 4_294_967_295;

    const CLOSING: [u8; 7] = [3, 0, 0, 0, 0, 0, 0];

    // What is lent, one word more than needed of each: accounts, counts of odd cents, costs.
    #[derive(Clone, Copy)]
    struct Rows {
        accounts: [u64; 5],
        odd: [u64; 4],
        costs: [u64; 3],
    }

    // A balance below 0, as it is kept.
    fn owed(cents: u64) -> u64 {
        0u64.wrapping_sub(cents)
    }

    // Books a row, and compares the answers and what is lent after it.
    fn booked(
        rt: &impl Abort,
        before: Rows,
        row: &[u8],
        told: [Answer; 3],
        after: Rows,
    ) -> Result<(), Fail> {
        let mut words = [0u64; 3];
        let mut sheet = [0u8; SHEET];
        let mut accounts = before.accounts;
        let mut odd = before.odd;
        let mut costs = before.costs;
        let mut line = Line::read(&LINE, &mut words)?;
        let mut answers = [Ok(Done::Booked); 3];
        let mut ledger = Ledger::new(&mut line, &mut accounts, &mut odd, &mut costs, &mut sheet)?;
        ledger.book_row(row, &mut answers)?;
        assert_eq!(rt; answers, told);
        assert_eq!(rt; accounts, after.accounts);
        assert_eq!(rt; odd, after.odd);
        assert_eq!(rt; costs, after.costs);
        Ok(())
    }

    // A closing by hand: of part 0's 10 cents farm 1 pays the odd one, since farm 0 has paid one before; of part 1's 5 farm 2 does.
    #[test]
    fn closing(rt: HostRuntime) -> Result<(), Fail> {
        booked(
            &rt,
            Rows {
                accounts: [50, 0, 0, owed(15), 9],
                odd: [1, 0, 0, 9],
                costs: [10, 5, 9],
            },
            &CLOSING,
            [
                Ok(Done::Closed(Cents(15))),
                Ok(Done::Booked),
                Ok(Done::Booked),
            ],
            Rows {
                accounts: [47, owed(6), owed(6), 0, 9],
                odd: [1, 1, 1, 9],
                costs: [0, 0, 9],
            },
        )
    }

    // A cost, a payment, and three bytes that are no booking.
    #[test]
    fn bookings(rt: HostRuntime) -> Result<(), Fail> {
        let before = Rows {
            accounts: [MOST - 2, 0, 0, 5, 9],
            odd: [0, 0, 0, 9],
            costs: [0, MOST - 8, 9],
        };
        let row = [1, 1, 0, 7, 0, 0, 0, 2, 0, 0, 2, 0, 0, 0, 2, 0, 0];
        let end = Err(Refusal::Length(17));
        booked(
            &rt,
            before,
            &row,
            [Ok(Done::Booked), Ok(Done::Booked), end],
            Rows {
                accounts: [MOST, 0, 0, owed(2), 9],
                odd: [0, 0, 0, 9],
                costs: [0, MOST - 1, 9],
            },
        )?;
        let one_more = [1, 1, 0, 8, 0, 0, 0, 2, 0, 0, 3, 0, 0, 0];
        booked(
            &rt,
            before,
            &one_more,
            [
                Err(Refusal::Amount(0)),
                Err(Refusal::Account {
                    at: 1,
                    whose: Holder::Farm(Farm(0)),
                }),
                Ok(Done::Booked),
            ],
            before,
        )
    }

    // A closing that is refused at its place for somebody's account or count, and changes nothing.
    fn refused(rt: &impl Abort, rows: Rows, whose: Holder) -> Result<(), Fail> {
        let no = Err(Refusal::Account { at: 0, whose });
        booked(
            rt,
            rows,
            &CLOSING,
            [no, Ok(Done::Booked), Ok(Done::Booked)],
            rows,
        )
    }

    #[test]
    fn closings_refused(rt: HostRuntime) -> Result<(), Fail> {
        let rows = Rows {
            accounts: [0, 0, 0, owed(15), 9],
            odd: [0, 0, 0, 9],
            costs: [10, 5, 9],
        };
        refused(
            &rt,
            Rows {
                odd: [5, LAST_COUNT, 5, 9],
                accounts: [0, 0, owed(MOST), owed(15), 9],
                costs: [1, 1_000_001, 9],
            },
            Holder::Farm(Farm(2)),
        )?;
        refused(
            &rt,
            Rows {
                odd: [LAST_COUNT, LAST_COUNT, LAST_COUNT, 9],
                ..rows
            },
            Holder::Farm(Farm(0)),
        )?;
        refused(
            &rt,
            Rows {
                accounts: [0, owed(MOST - 5), owed(MOST), owed(15), 9],
                ..rows
            },
            Holder::Farm(Farm(1)),
        )?;
        refused(
            &rt,
            Rows {
                accounts: [0, 0, 0, MOST - 14, 9],
                ..rows
            },
            Holder::Cooperative,
        )
    }

    // How much is lent of each.
    #[derive(Clone, Copy)]
    struct Room {
        words: usize,
        accounts: usize,
        odd: usize,
        costs: usize,
        sheet: usize,
    }

    // Just what is needed.
    const ENOUGH: Room = Room {
        words: 2,
        accounts: 4,
        odd: 3,
        costs: 2,
        sheet: SHEET,
    };

    // Opens a ledger on so much of the rows, and compares the answer; a refusal leaves the words as they were.
    fn opened(
        rt: &impl Abort,
        rows: Rows,
        room: Room,
        answer: Result<Size, Refusal>,
    ) -> Result<(), Fail> {
        let mut words = [9u64; 3];
        let sheet = [0u8; SHEET];
        let got = open(
            &LINE,
            &mut words[..room.words.min(3)],
            &rows.accounts[..room.accounts.min(5)],
            &rows.odd[..room.odd.min(4)],
            &rows.costs[..room.costs.min(3)],
            &sheet[..room.sheet.min(SHEET)],
        );
        assert_eq!(rt; got, answer);
        match answer {
            Ok(_) => {
                assert_eq!(rt; words, [7, 6, 9]);
                Ok(())
            },
            Err(_) => {
                assert_eq!(rt; words, [9; 3]);
                Ok(())
            },
        }
    }

    // Accounts, counts and costs at the ends of their ranges.
    const ENDS: Rows = Rows {
        accounts: [1_000_000_000_000, 18_446_743_073_709_551_616, 0, 0, 9],
        odd: [LAST_COUNT, 0, 0, 9],
        costs: [999_999_999_999, 0, 9],
    };

    #[test]
    fn too_short(rt: HostRuntime) -> Result<(), Fail> {
        opened(&rt, ENDS, ENOUGH, Ok(Size { farms: 3, parts: 2 }))?;
        opened(
            &rt,
            ENDS,
            Room {
                words: 1,
                accounts: 3,
                ..ENOUGH
            },
            Err(Refusal::Short(Lent::Line)),
        )?;
        opened(
            &rt,
            ENDS,
            Room {
                accounts: 3,
                costs: 1,
                ..ENOUGH
            },
            Err(Refusal::Short(Lent::Accounts)),
        )?;
        opened(
            &rt,
            ENDS,
            Room {
                odd: 2,
                costs: 1,
                ..ENOUGH
            },
            Err(Refusal::Short(Lent::Accounts)),
        )?;
        opened(
            &rt,
            ENDS,
            Room {
                costs: 1,
                sheet: 0,
                ..ENOUGH
            },
            Err(Refusal::Short(Lent::Costs)),
        )?;
        opened(
            &rt,
            ENDS,
            Room {
                sheet: SHEET - 1,
                ..ENOUGH
            },
            Err(Refusal::Short(Lent::Sheet)),
        )
    }

    // Opens a ledger on an account or a count that is refused.
    fn out_of_range(rt: &impl Abort, rows: Rows, at: usize, whose: Holder) -> Result<(), Fail> {
        opened(rt, rows, ENOUGH, Err(Refusal::Account { at, whose }))
    }

    #[test]
    fn past_the_ends(rt: HostRuntime) -> Result<(), Fail> {
        opened(
            &rt,
            Rows {
                accounts: [MOST + 1, 0, 0, 0, 9],
                costs: [0, MOST, 9],
                ..ENDS
            },
            ENOUGH,
            Err(Refusal::Amount(1)),
        )?;
        out_of_range(
            &rt,
            Rows {
                accounts: [0, owed(MOST + 1), 0, 0, 9],
                ..ENDS
            },
            1,
            Holder::Farm(Farm(1)),
        )?;
        out_of_range(
            &rt,
            Rows {
                accounts: [0, 0, 0, MOST + 1, 9],
                odd: [0, 0, LAST_COUNT + 1, 9],
                ..ENDS
            },
            2,
            Holder::Farm(Farm(2)),
        )?;
        out_of_range(
            &rt,
            Rows {
                accounts: [0, 0, 0, MOST + 1, 9],
                ..ENDS
            },
            3,
            Holder::Cooperative,
        )
    }

    // Fewer answers than the row needs are lent, to a ledger made over what `open` has looked at: nothing is booked.
    #[test]
    fn too_few_answers(rt: HostRuntime) -> Result<(), Fail> {
        let mut words = [0u64; 2];
        let mut accounts = [0u64; 4];
        let mut odd = [0u64; 3];
        let mut costs = [4u64; 2];
        let mut sheet = [0u8; SHEET];
        let size = open(&LINE, &mut words, &accounts, &odd, &costs, &sheet)?;
        let mut line = Line {
            size,
            words: &mut words,
        };
        let mut answers = [Ok(Done::Closed(Cents(1))); 1];
        let mut ledger = Ledger {
            line: &mut line,
            accounts: &mut accounts,
            odd: &mut odd,
            costs: &mut costs,
            sheet: &mut sheet,
        };
        let got = ledger.book_row(&[3, 0, 0, 0, 0, 0, 0, 3], &mut answers);
        assert_eq!(rt; got, Err(Refusal::Short(Lent::Answers)));
        assert_eq!(rt; answers, [Ok(Done::Closed(Cents(1))); 1]);
        assert_eq!(rt; accounts, [0; 4]);
        assert_eq!(rt; costs, [4; 2]);
        Ok(())
    }
}
