// Years whose shares are worked out by hand.
#![tactic(auto)]

#[cfg(test)]
mod tests {
    use line::line::Line;
    use line::names::{Farm, Part};
    use line::refusal::{Lent, Refusal};
    use number::cents::Cents;
    use share::form::PartShare;
    use share::parts::part_shares;
    use share::shares::{share_of, shares};
    use std::process::Abort;
    use std::test::Fail;

    // Compares a farm's share with its top and bottom, and with its number over the scale.
    fn farm_agrees(
        rt: &impl Abort,
        line: &Line,
        costs: &[u64],
        farm: Farm,
        scaled: u64,
        scale: u64,
        expected: (u64, u64),
    ) -> Result<(), Fail> {
        let (top, bottom) = expected;
        let Some(share) = share_of(line, costs, farm)? else {
            return Err(Fail::new("no share"));
        };
        assert_eq!(rt; share.top(), top);
        assert_eq!(rt; share.bottom(), bottom);
        assert_eq!(rt; scaled.wrapping_mul(bottom), scale.wrapping_mul(top));
        Ok(())
    }

    // Compares the shares of all farms of a line that takes at most eight words.
    fn year(
        rt: &impl Abort,
        bytes: &[u8],
        costs: &[u64],
        scale: u64,
        expected: &[(u64, u64)],
    ) -> Result<(), Fail> {
        let mut words = [0u64; 8];
        let line = Line::read(bytes, &mut words)?;
        let mut row = [7u64; 8];
        assert_eq!(rt; shares(&line, costs, &mut row), Ok(Some(scale)));
        assert_eq!(rt; row[7], 7);
        assert_eq!(rt; expected.len(), line.size.farms as usize);
        for (i, (scaled, share)) in (0..line.size.farms).zip(row.iter().zip(expected)) {
            farm_agrees(rt, &line, costs, Farm(i), *scaled, scale, *share)?;
        }
        Ok(())
    }

    #[test]
    fn worked_years(rt: HostRuntime) -> Result<(), Fail> {
        year(
            &rt,
            &[3, 0, 3, 0, 7, 6, 4],
            &[90, 30, 7],
            6,
            &[(30, 1), (45, 1), (52, 1)],
        )?;
        year(
            &rt,
            &[3, 0, 1, 0, 7],
            &[10],
            3,
            &[(10, 3), (10, 3), (10, 3)],
        )?;
        year(
            &rt,
            &[3, 0, 2, 0, 3, 6],
            &[1, 1],
            2,
            &[(1, 2), (1, 1), (1, 2)],
        )?;
        year(&rt, &[1, 0, 1, 0, 1], &[5], 1, &[(5, 1)])?;
        year(
            &rt,
            &[4, 0, 3, 0, 15, 7, 3],
            &[10, 10, 10],
            12,
            &[(65, 6), (65, 6), (35, 6), (5, 2)],
        )
    }

    // A part that costs nothing does not enter the scale, and a year without costs has the scale 1.
    #[test]
    fn free_parts(rt: HostRuntime) -> Result<(), Fail> {
        year(
            &rt,
            &[5, 0, 2, 0, 7, 31],
            &[10, 0],
            3,
            &[(10, 3), (10, 3), (10, 3), (0, 1), (0, 1)],
        )?;
        year(
            &rt,
            &[3, 0, 2, 0, 7, 3],
            &[0, 0],
            1,
            &[(0, 1), (0, 1), (0, 1)],
        )
    }

    // A row of a farm's parts.
    fn part_share(part: u16, cost: u64, users: u64) -> PartShare {
        PartShare {
            part: Part(part),
            cost: Cents(cost),
            users,
        }
    }

    // Parts with 7, 9, 11 and 13 users: the scale would be 9,009.
    #[test]
    fn part_by_part(rt: HostRuntime) -> Result<(), Fail> {
        let mut words = [0u64; 4];
        let line = Line::read(&[13, 0, 4, 0, 127, 0, 255, 1, 255, 7, 255, 31], &mut words)?;
        let costs = [70, 90, 110, 130];
        let mut row = [7u64; 13];
        assert_eq!(rt; shares(&line, &costs, &mut row), Ok(None));
        assert_eq!(rt; row[0], 7);
        assert!(rt; share_of(&line, &costs, Farm(8))?.is_none());
        let mut rows = [part_share(9, 9, 9); 4];
        assert_eq!(rt; part_shares(&line, &costs, Farm(8), &mut rows), Ok(3));
        assert_eq!(rt;
            rows,
            [
                part_share(1, 90, 9),
                part_share(2, 110, 11),
                part_share(3, 130, 13),
                part_share(9, 9, 9),
            ]
        );
        Ok(())
    }

    // What is refused first where several things are wrong; nothing lent is changed.
    #[test]
    fn refusals(rt: HostRuntime) -> Result<(), Fail> {
        let mut words = [0u64; 2];
        let line = Line::read(&[3, 0, 2, 0, 7, 6], &mut words)?;
        let mut row = [7u64; 3];
        assert_eq!(rt;
            shares(&line, &[1], &mut row[0..2]),
            Err(Refusal::Short(Lent::Accounts))
        );
        assert_eq!(rt;
            shares(&line, &[1_000_000_000_000], &mut row),
            Err(Refusal::Short(Lent::Costs))
        );
        assert_eq!(rt;
            shares(&line, &[1, 1_000_000_000_000], &mut row),
            Err(Refusal::Amount(1))
        );
        assert_eq!(rt; row, [7u64; 3]);
        Ok(())
    }

    // The same of a farm's share.
    #[test]
    fn farm_refusals(rt: HostRuntime) -> Result<(), Fail> {
        let mut words = [0u64; 2];
        let line = Line::read(&[3, 0, 2, 0, 7, 6], &mut words)?;
        let blank = part_share(9, 9, 9);
        let mut rows = [blank; 2];
        let large = [1_000_000_000_000, 1];
        assert_eq!(rt;
            part_shares(&line, &[1], Farm(3), &mut rows[0..1]),
            Err(Refusal::Short(Lent::Costs))
        );
        assert_eq!(rt;
            part_shares(&line, &large, Farm(3), &mut rows[0..1]),
            Err(Refusal::Short(Lent::Sheet))
        );
        assert_eq!(rt;
            part_shares(&line, &large, Farm(3), &mut rows),
            Err(Refusal::Unknown(3))
        );
        assert_eq!(rt;
            part_shares(&line, &large, Farm(2), &mut rows),
            Err(Refusal::Amount(0))
        );
        assert_eq!(rt; rows, [blank; 2]);
        assert_eq!(rt;
            share_of(&line, &[1], Farm(3)),
            Err(Refusal::Short(Lent::Costs))
        );
        assert_eq!(rt; share_of(&line, &large, Farm(3)), Err(Refusal::Unknown(3)));
        Ok(())
    }
}
