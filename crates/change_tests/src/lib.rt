// Farms that join and leave parts, on lines of one and of several words to a part.
#![tactic(auto)]

#[cfg(test)]
mod tests {
    use change::change::{join, leave};
    use line::limits::MOST_FARMS;
    use line::line::Line;
    use line::names::{Farm, Part};
    use line::read::read_line;
    use line::refusal::Refusal;
    use std::alloc::{AllocError, Global};
    use std::ops::Range;
    use std::process::Abort;
    use std::test::Fail;

    // More words than the largest of these lines takes.
    const LENT: usize = 23;

    // The first part is used by farm 0, the second by the last farm, the third by farms 0 and 1.
    fn row_byte(part: usize, k: usize, last: usize) -> u8 {
        match part {
            0 => u8::from(k == 0),
            1 => u8::from(k == last / 8) << (last % 8),
            _ => 3 * u8::from(k == 0),
        }
    }

    // That line's bytes.
    fn bytes(alloc: Global, farms: u16) -> Result<Vec<u8>, AllocError> {
        let [low, high] = farms.to_le_bytes();
        let mut out = vec![in alloc; low, high, 3, 0]?;
        let last = (farms as usize).saturating_sub(1);
        for part in 0..3 {
            for k in 0..(farms as usize).div_ceil(8) {
                out.push(row_byte(part, k, last))?;
            }
        }
        Ok(out)
    }

    // The words are these, also those past the line.
    fn words_are(rt: &impl Abort, line: &Line, words: &[u64]) {
        assert_eq!(rt; line.words.len(), words.len());
        assert!(rt; &line.words[..] == words);
    }

    // One call, its answer, and the words after it.
    fn step<F: FnOnce(&mut Line, Farm, Part) -> Result<(), Refusal>>(
        rt: &impl Abort,
        line: &mut Line,
        call: F,
        farm: u16,
        part: u16,
        answer: Result<(), Refusal>,
        words: &[u64],
    )
        requires { F.IsAlwaysCallable call }
    {
        let given = call(line, Farm(farm), Part(part));
        assert_eq!(rt; given, answer);
        words_are(rt, line, words);
    }

    // A farm that doesn't use the part leaves it, which changes nothing; joins it twice, which sets its bit and no other; and leaves it twice.
    fn there_and_back(rt: &impl Abort, line: &mut Line, farm: u16, part: u16, words: &mut [u64]) {
        let width = (line.size.farms as usize).div_ceil(64);
        let at = part as usize * width + farm as usize / 64;
        assert!(rt; at < words.len());
        let bit = 1u64 << (farm % 64);
        words[at] &= !bit;
        step(rt, line, leave, farm, part, Ok(()), words);
        words[at] |= bit;
        step(rt, line, join, farm, part, Ok(()), words);
        step(rt, line, join, farm, part, Ok(()), words);
        words[at] &= !bit;
        step(rt, line, leave, farm, part, Ok(()), words);
        step(rt, line, leave, farm, part, Ok(()), words);
    }

    // So do these farms, one after the other.
    fn all_there_and_back(
        rt: &impl Abort,
        line: &mut Line,
        farms: Range<u16>,
        part: u16,
        words: &mut [u64],
    ) {
        for farm in farms {
            there_and_back(rt, line, farm, part, words);
        }
    }

    // What is refused leaves the words: an unknown part, then an unknown farm, then that the only user leaves.
    fn refusals(rt: &impl Abort, line: &mut Line, farms: u16, words: &[u64]) {
        let no_part = Err(Refusal::Unknown(3));
        let no_farm = Err(Refusal::Unknown(farms as usize));
        let neither = Err(Refusal::Unknown(65535));
        step(rt, line, join, farms, 3, no_part, words);
        step(rt, line, leave, farms, 3, no_part, words);
        step(rt, line, join, 0, 3, no_part, words);
        step(rt, line, leave, 0, 3, no_part, words);
        step(rt, line, join, 65535, 65535, neither, words);
        step(rt, line, join, farms, 0, no_farm, words);
        step(rt, line, leave, farms, 0, no_farm, words);
        step(rt, line, leave, 65535, 0, neither, words);
        step(rt, line, leave, 0, 0, Err(Refusal::Users(0)), words);
    }

    // The only user of the second part leaves it once another has joined, who then can't; of the two users of the third one leaves, and the other can't.
    fn handed_on(rt: &impl Abort, line: &mut Line, last: u16) {
        assert_eq!(rt; leave(line, Farm(last), Part(1)), Err(Refusal::Users(1)));
        assert_eq!(rt; join(line, Farm(1), Part(1)), Ok(()));
        assert_eq!(rt; leave(line, Farm(last), Part(1)), Ok(()));
        assert_eq!(rt; leave(line, Farm(1), Part(1)), Err(Refusal::Users(1)));
        assert_eq!(rt; leave(line, Farm(0), Part(2)), Ok(()));
        assert_eq!(rt; leave(line, Farm(1), Part(2)), Err(Refusal::Users(2)));
        assert_eq!(rt; line.users(Part(1)), 1);
        assert_eq!(rt; line.users(Part(2)), 1);
    }

    // All of that on a line of so many farms.
    fn round(rt: &impl Abort, alloc: Global, farms: u16) -> Result<(), Fail> {
        let given = bytes(alloc, farms)?;
        let mut lent = [7u64; LENT];
        let size = read_line(&given, &mut lent)?;
        // copied before the line holds them
        let mut words = lent;
        let mut line = Line {
            size,
            words: &mut lent,
        };
        let last = farms.saturating_sub(1);
        all_there_and_back(rt, &mut line, 1..farms, 0, &mut words);
        all_there_and_back(rt, &mut line, 0..last, 1, &mut words);
        all_there_and_back(rt, &mut line, 2..farms, 2, &mut words);
        refusals(rt, &mut line, farms, &words);
        handed_on(rt, &mut line, last);
        assert_eq!(rt; lent[LENT - 1], 7);
        Ok(())
    }

    #[test]
    fn sizes(rt: HostRuntime) -> Result<(), Fail> {
        for farms in [63u16, 64, 65, MOST_FARMS] {
            round(&rt, rt.alloc(), farms)?;
        }
        Ok(())
    }
}
