// Years whose cents are worked out by hand.
#![tactic(auto)]

#[cfg(test)]
mod tests {
    use cents::costs::split_costs;
    use line::line::Line;
    use line::names::Farm;
    use line::refusal::{Holder, Lent, Refusal};
    use std::process::Abort;
    use std::test::Fail;

    // Splits a year on a line of at most four farms, from these counts, and compares each farm's cents and counts after it.
    fn year(
        rt: &impl Abort,
        bytes: &[u8],
        costs: &[u64],
        before: [u64; 4],
        cents: [u64; 4],
        after: [u64; 4],
    ) -> Result<(), Fail> {
        let mut words = [0u64; 4];
        let line = Line::read(bytes, &mut words)?;
        let mut odd = before;
        let mut sums = [9u64; 4];
        split_costs(&line, costs, &mut odd, &mut sums)?;
        assert_eq!(rt; sums, cents);
        assert_eq!(rt; odd, after);
        Ok(())
    }

    #[test]
    fn worked_years(rt: HostRuntime) -> Result<(), Fail> {
        year(
            &rt,
            &[3, 0, 3, 0, 7, 6, 4],
            &[90, 30, 7],
            [0; 4],
            [30, 45, 52, 9],
            [0; 4],
        )?;
        year(
            &rt,
            &[3, 0, 1, 0, 7],
            &[10],
            [0; 4],
            [4, 3, 3, 9],
            [1, 0, 0, 0],
        )?;
        year(
            &rt,
            &[3, 0, 1, 0, 7],
            &[10],
            [1, 0, 0, 6],
            [3, 4, 3, 9],
            [1, 1, 0, 6],
        )?;
        year(
            &rt,
            &[3, 0, 2, 0, 3, 6],
            &[1, 1],
            [0; 4],
            [1, 1, 0, 9],
            [1, 1, 0, 0],
        )?;
        year(&rt, &[1, 0, 1, 0, 1], &[5], [0; 4], [5, 9, 9, 9], [0; 4])?;
        year(
            &rt,
            &[2, 0, 1, 0, 3],
            &[999_999_999_999],
            [4, 3, 0, 0],
            [499_999_999_999, 500_000_000_000, 9, 9],
            [4, 4, 0, 0],
        )?;
        year(
            &rt,
            &[4, 0, 3, 0, 15, 7, 3],
            &[10, 10, 10],
            [0; 4],
            [11, 11, 6, 2],
            [1, 1, 1, 0],
        )
    }

    #[test]
    fn refusals(rt: HostRuntime) -> Result<(), Fail> {
        let mut words = [0u64; 2];
        let line = Line::read(&[3, 0, 2, 0, 7, 6], &mut words)?;
        let mut odd = [4_294_967_295u64; 3];
        let mut sums = [7u64; 3];
        assert_eq!(rt;
            split_costs(&line, &[10, 0], &mut odd, &mut sums),
            Err(Refusal::Account {
                at: 0,
                whose: Holder::Farm(Farm(0)),
            })
        );
        assert_eq!(rt;
            split_costs(&line, &[9, 1_000_000_000_000], &mut odd, &mut sums),
            Err(Refusal::Amount(1))
        );
        assert_eq!(rt;
            split_costs(&line, &[9], &mut odd, &mut sums),
            Err(Refusal::Short(Lent::Costs))
        );
        assert_eq!(rt;
            split_costs(&line, &[9, 9], &mut odd, &mut sums[0..2]),
            Err(Refusal::Short(Lent::Accounts))
        );
        assert_eq!(rt; odd, [4_294_967_295u64; 3]);
        assert_eq!(rt; sums, [7u64; 3]);
        assert_eq!(rt; split_costs(&line, &[9, 10], &mut odd, &mut sums), Ok(()));
        assert_eq!(rt; sums, [3, 8, 8]);
        Ok(())
    }

    // The lowest farm is refused whose count is too large, or would be.
    #[test]
    fn counts_refused(rt: HostRuntime) -> Result<(), Fail> {
        let mut words = [0u64; 2];
        let line = Line::read(&[3, 0, 2, 0, 7, 6], &mut words)?;
        let before = [0, 4_294_967_295u64, 4_294_967_296];
        let mut odd = before;
        let mut sums = [7u64; 3];
        assert_eq!(rt;
            split_costs(&line, &[1, 0], &mut odd, &mut sums),
            Err(Refusal::Account {
                at: 2,
                whose: Holder::Farm(Farm(2)),
            })
        );
        assert_eq!(rt;
            split_costs(&line, &[0, 1], &mut odd, &mut sums),
            Err(Refusal::Account {
                at: 1,
                whose: Holder::Farm(Farm(1)),
            })
        );
        assert_eq!(rt; odd, before);
        assert_eq!(rt; sums, [7u64; 3]);
        Ok(())
    }
}
