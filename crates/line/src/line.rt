// A line over lent words.
ghost use Rattle.line.specs.Sound.{Sound};

use crate::size::Size;

// Who uses which part: one row of bits to a part, in whole words, farm i being bit i modulo 64 of word i / 64.
// Every part has a user, and no bit stands that is no farm's. Words past the rows are the lender's.
#[derive(Drop)]
pub struct Line<'a> {
    pub size: Size,
    pub words: &'a mut [u64],
    ghost sound: { Sound size.farms size.parts words.now },
}
