// How large a line is.
ghost use Rattle.std.specs.Prelude.{◌≡◌};
ghost use Rattle.line.specs.Bytes.{byte_length};
ghost use Rattle.line.specs.Rows.{across, word_length};

use crate::limits::{MOST_FARMS, MOST_PARTS};

// The number of farms and the number of parts.
#[derive(Clone, Copy, PartialEq, Eq, Debug)]
pub struct Size {
    pub farms: u16,
    pub parts: u16,
}

impl Size {
    // The size of the largest line.
    pub const LARGEST: Size = Size {
        farms: MOST_FARMS,
        parts: MOST_PARTS,
    };

    // How many words a part's row takes. A const parameter for this 64 and the 8 below would have to ask that it is not 0.
    pub fn row_words(self) -> usize
        ensures { result ≡ across 64 self.farms }
    {
        (self.farms as usize).div_ceil(64)
    }

    // How many bytes a part's row takes.
    pub(crate) fn row_bytes(self) -> usize
        ensures { result ≡ across 8 self.farms }
    {
        (self.farms as usize).div_ceil(8)
    }

    // How many words a line takes.
    pub fn words(self) -> usize
        ensures { result ≡ word_length self.farms self.parts }
    {
        self.parts as usize * self.row_words()
    }

    // How many bytes a line takes.
    pub fn bytes(self) -> usize
        ensures { result ≡ byte_length self.farms self.parts }
    {
        4 + self.parts as usize * self.row_bytes()
    }
}
