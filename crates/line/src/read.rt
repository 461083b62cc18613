// Reading a line from bytes, or refusing it.
ghost use Rattle.std.specs.Prelude.{◌≡◌, ℕ, ◌+◌, ◌*◌, ◌^◌, ◌<◌, ◌≤◌, length, drop, IfOk, MatchBool, slice_index};
ghost use Rattle.std.specs.Result.{result_err};
ghost use Rattle.number.specs.First.{found};
ghost use Rattle.line.specs.Reading.{sizing, faulty, part_faulty, reading, filled, Taken};
ghost use Rattle.line.specs.Held.{HasRead};
ghost use Rattle.line.specs.Rows.{has, in_row, across, word_length, SameRows};

use crate::limits::{MOST_FARMS, MOST_PARTS};
use crate::line::Line;
use crate::refusal::{Lent, Refusal};
use crate::row::copy_rows;
use crate::size::Size;
use std::array;

// The size that the first four bytes tell, where the number of bytes fits it.
fn sized(bytes: &[u8]) -> Result<Size, Refusal>
    ensures { result ≡ sizing bytes.now }
{
    let [n0, n1, m0, m1, ..] = bytes else {
        return Err(Refusal::Length(bytes.len()));
    };
    let farms = u16::from_le_bytes([*n0, *n1]);
    let parts = u16::from_le_bytes([*m0, *m1]);
    if farms == 0 || farms > MOST_FARMS {
        return Err(Refusal::Count(0));
    }
    if parts == 0 || parts > MOST_PARTS {
        return Err(Refusal::Count(2));
    }
    let size = Size { farms, parts };
    let end = size.bytes();
    if bytes.len() != end {
        return Err(Refusal::Length(bytes.len().min(end)));
    }
    Ok(size)
}

// Whether a row has no bit set.
fn is_blank(bytes: &[u8]) -> bool
    ensures { MatchBool result ((k : ℕ) → slice_index bytes.now k ≡ 0) ((k : ℕ) × (k < length bytes.now) × (0 < slice_index bytes.now k)) }
{
    bytes.iter().all(|byte| *byte == 0)
}

// Whether a part's row has a bit that is no farm's, or none at all.
fn is_faulty(bytes: &[u8], farms: u16) -> bool
    requires some { 0 < farms }
    requires whole { length bytes.now ≡ across 8 farms }
    ensures { result ≡ faulty farms bytes.now }
{
    // shifted so that the last farm's bit is the lowest: above 1, a bit stands after it
    let last = bytes[bytes.len() - 1];
    last >> ((farms - 1) % 8) > 1 || is_blank(bytes)
}

// The first part whose row is faulty.
fn first_faulty(bytes: &[u8], size: Size) -> Option<usize>
    requires some { 0 < size.farms }
    requires whole { length bytes.now ≡ size.parts * across 8 size.farms }
    ensures { result ≡ found size.parts (part_faulty size.farms bytes.now) }
{
    bytes
        .chunks_exact(size.row_bytes())
        .position(|row| is_faulty(row, size.farms))
}

// The first eight bytes; past the end stand zeros. They are not copied by how many there are, which would be a call for each word.
fn padded(bytes: &[u8]) -> [u8; 8]
    ensures { (j : ℕ) → j < 8 → slice_index result j ≡ slice_index bytes.now j }
{
    match bytes.first_chunk() {
        Some(eight) => *eight,
        None => array::from_fn(|j| bytes.get(j).copied().unwrap_or(0)),
    }
}

// The eight bytes from place k on as one word; past the end stand zeros.
fn word_at(bytes: &[u8], k: usize) -> u64
    ensures { (i : ℕ) → i < 64 → has result i ≡ in_row 8 bytes.now (8 * k + i) }
{
    u64::from_le_bytes(padded(&bytes[k.min(bytes.len())..]))
}

// Writes a row of bytes as a row of words.
fn pack_row(bytes: &[u8], words: &mut [u64])
    requires { length words.old < 2 ^ 16 }
    ensures { (i : ℕ) → i < 64 * length words.new → in_row 64 words.new i ≡ in_row 8 bytes.now i }
{
    for (k, word) in words.iter_mut().enumerate() {
        *word = word_at(bytes, 8 * k);
    }
}

// Writes rows of bytes as rows of words.
fn pack(bytes: &[u8], size: Size, words: &mut [u64])
    requires whole { size.parts * across 8 size.farms ≤ length bytes.now }
    requires room { word_length size.farms size.parts ≤ length words.old }
    ensures same { SameRows 64 (across 64 size.farms) 8 (across 8 size.farms) size.parts words.new bytes.now }
    ensures rest { drop (word_length size.farms size.parts) words.new ≡ drop (word_length size.farms size.parts) words.old }
{
    copy_rows(
        bytes,
        size.row_bytes(),
        words,
        size.row_words(),
        size.parts as usize,
        pack_row,
    );
}

// What `read_line` answers where so many words are lent: the size of the line that the bytes mean, or the refusal. Nothing is written.
pub fn check_line(bytes: &[u8], lent: usize) -> Result<Size, Refusal>
    ensures { result ≡ reading bytes.now lent }
{
    let size = sized(bytes)?;
    if let Some(part) = first_faulty(&bytes[4..], size) {
        return Err(Refusal::Users(part));
    }
    if lent < size.words() {
        return Err(Refusal::Short(Lent::Line));
    }
    Ok(size)
}

// Fills lent words with the line that the bytes mean, and answers its size. A refusal leaves them as they were, and words past the line's stay in any case.
pub fn read_line(bytes: &[u8], words: &mut [u64]) -> Result<Size, Refusal>
    ensures answer { result ≡ reading bytes.now (length words.old) }
    ensures after { words.new ≡ filled bytes.now words.old }
    ensures taken { IfOk result (Taken bytes.now words.new) }
{
    let size = check_line(bytes, words.len())?;
    pack(&bytes[4..], size, words);
    Ok(size)
}

impl<'a> Line<'a> {
    // The line that the bytes mean, kept in the words that are lent. Where it is refused, `read_line` alone says what the words hold.
    pub fn read(bytes: &[u8], words: &'a mut [u64]) -> Result<Line<'a>, Refusal>
        ensures refused { result_err result ≡ result_err (reading bytes.now (length words.old)) }
        ensures taken { IfOk result (HasRead bytes.now words.old) }
        ensures lent { IfOk result (λ l. l.words.ghost_name ≡ words.entry.ghost_name) }
    {
        let size = read_line(bytes, words)?;
        Ok(Line { size, words })
    }
}
