// Writing a line as bytes.
ghost use Rattle.std.specs.Prelude.{◌≡◌, ℕ, ◌*◌, ◌<◌, ◌≤◌, length, drop};
ghost use Rattle.line.specs.Held.{held};
ghost use Rattle.line.specs.Reading.{writing, written, Again};
ghost use Rattle.line.specs.Rows.{in_row, across, word_length, SameRows};

use crate::line::Line;
use crate::refusal::{Lent, Refusal};
use crate::row::copy_rows;
use crate::size::Size;

// Writes the front of a row of words as a row of bytes.
fn unpack_row(words: &[u64], bytes: &mut [u8])
    requires { length bytes.old ≤ 8 * length words.now }
    ensures { (i : ℕ) → i < 8 * length bytes.new → in_row 8 bytes.new i ≡ in_row 64 words.now i }
{
    for (k, byte) in bytes.iter_mut().enumerate() {
        // one byte of a word, where `to_le_bytes` would make eight
        *byte = (words[k / 8] >> (8 * (k % 8)) & 0xff) as u8;
    }
}

// Writes rows of words as rows of bytes.
fn unpack(words: &[u64], size: Size, bytes: &mut [u8])
    requires whole { word_length size.farms size.parts ≤ length words.now }
    requires room { size.parts * across 8 size.farms ≤ length bytes.old }
    ensures same { SameRows 8 (across 8 size.farms) 64 (across 64 size.farms) size.parts bytes.new words.now }
    ensures rest { drop (size.parts * across 8 size.farms) bytes.new ≡ drop (size.parts * across 8 size.farms) bytes.old }
{
    copy_rows(
        words,
        size.row_words(),
        bytes,
        size.row_bytes(),
        size.parts as usize,
        unpack_row,
    );
}

// The bytes are lent, as all memory that the libraries below `report` work in.
impl Line<'_> {
    // Writes the line's bytes to the front of what is lent, and answers how many there are. A refusal leaves what is lent as it was.
    pub fn write(&self, bytes: &mut [u8]) -> Result<usize, Refusal>
        ensures answer { result ≡ writing (held self.now) (length bytes.old) }
        ensures after { bytes.new ≡ written (held self.now) bytes.old }
        ensures again { Again (held self.now) self.now.size }
    {
        let size = self.size;
        let end = size.bytes();
        if bytes.len() < end {
            return Err(Refusal::Short(Lent::Line));
        }
        bytes[..2].copy_from_slice(&size.farms.to_le_bytes());
        bytes[2..4].copy_from_slice(&size.parts.to_le_bytes());
        unpack(self.words, size, &mut bytes[4..]);
        Ok(end)
    }
}
