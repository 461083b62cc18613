// Lines of several sizes, read, looked at and written again.
#![tactic(auto)]

#[cfg(test)]
mod tests {
    use line::limits::MOST_FARMS;
    use line::line::Line;
    use line::names::{Farm, Part};
    use line::read::read_line;
    use line::refusal::{Lent, Refusal};
    use line::size::Size;
    use std::alloc::{AllocError, Global};
    use std::process::Abort;
    use std::test::Fail;

    // Part 0 is used by all farms, part 1 by the last one, and part 2 by every third.
    fn expected(farms: u16, farm: u16, part: u16) -> bool {
        match part {
            0 => farm < farms,
            1 => farms > 0 && farm == farms - 1,
            2 => farm < farms && farm % 3 == 0,
            _ => false,
        }
    }

    // Byte k of a part's row.
    fn byte(farms: u16, part: u16, k: u16) -> u8 {
        let mut byte = 0u8;
        for bit in 0..8u16 {
            let farm = k.saturating_mul(8).saturating_add(bit);
            if expected(farms, farm, part) {
                byte |= 1u8 << bit;
            }
        }
        byte
    }

    // The bytes of that line.
    fn bytes(heap: Global, farms: u16) -> Result<Vec<u8>, AllocError> {
        let mut out = Vec::new(heap);
        out.extend_from_slice(&farms.to_le_bytes())?;
        out.extend_from_slice(&3u16.to_le_bytes())?;
        for part in 0..3u16 {
            for k in 0..farms.div_ceil(8) {
                out.push(byte(farms, part, k))?;
            }
        }
        Ok(out)
    }

    // Asks the line about each farm of a part, and how many use it.
    fn part_agrees(rt: &impl Abort, line: &Line, farms: u16, part: u16) {
        let mut users = 0u64;
        for farm in 0..farms.saturating_add(70) {
            let uses = expected(farms, farm, part);
            assert_eq!(rt; line.uses(Farm(farm), Part(part)), uses);
            users = users.saturating_add(u64::from(uses));
        }
        assert_eq!(rt; line.users(Part(part)), users);
    }

    // Writes the line, and compares with the bytes that it was read from and with what stood after them.
    fn written_back(rt: &impl Abort, heap: Global, line: &Line, given: &[u8]) -> Result<(), Fail> {
        let mut out = vec![in heap; 9u8; 5000]?;
        let end = line.write(out.as_mut_slice())?;
        assert_eq!(rt; end, given.len());
        assert!(rt; end < 5000);
        assert!(rt; &out.as_slice()[0..end] == given);
        assert_eq!(rt; out.as_slice()[end], 9);
        Ok(())
    }

    // Reads the line of so many farms into lent words, asks about every farm and part, and writes it again.
    fn round(rt: &impl Abort, heap: Global, farms: u16, words: &mut [u64]) -> Result<(), Fail> {
        let given = bytes(heap, farms)?;
        let line = Line::read(given.as_slice(), words)?;
        assert_eq!(rt; line.size.farms, farms);
        assert_eq!(rt; line.size.parts, 3);
        for part in 0..5u16 {
            part_agrees(rt, &line, farms, part);
        }
        written_back(rt, heap, &line, given.as_slice())
    }

    #[test]
    fn sizes(rt: HostRuntime) -> Result<(), Fail> {
        let mut words = vec![in rt.alloc(); 7u64; Size::LARGEST.words()]?;
        for farms in [1u16, 8, 9, 63, 64, 65, MOST_FARMS] {
            round(&rt, rt.alloc(), farms, words.as_mut_slice())?;
        }
        Ok(())
    }

    #[test]
    fn too_few_words(rt: HostRuntime) -> Result<(), Fail> {
        let given = bytes(rt.alloc(), 65)?;
        let mut words = [7u64; 5];
        assert_eq!(rt;
            read_line(given.as_slice(), &mut words),
            Err(Refusal::Short(Lent::Line))
        );
        assert_eq!(rt; words, [7u64; 5]);
        Ok(())
    }

    #[test]
    fn too_few_bytes(rt: HostRuntime) -> Result<(), Fail> {
        let mut words = [0u64; 3];
        let line = Line::read(&[3, 0, 3, 0, 7, 6, 4], &mut words)?;
        let mut out = [9u8; 6];
        assert_eq!(rt; line.write(&mut out), Err(Refusal::Short(Lent::Line)));
        assert_eq!(rt; out, [9u8; 6]);
        Ok(())
    }
}
