// The columns of a row.
ghost use Rattle.std.specs.Prelude.{◌+◌, ◌≤◌, length};

use text_io::row::{byte, digit, number};
use util::write32;

// The length of a row, with its newline.
pub const ROW: usize = 120;

// Where the columns start.
const RECORD: usize = 0;

const WORD: usize = 17;

const OFFSET: usize = 34;

const SYMBOL: usize = 43;

const KEY: usize = 52;

const ADDRESS_DIVERSITY: usize = 54;

const DIVERSITY: usize = 56;

const ADDEND: usize = 61;

// The number of four bytes as they stand in the object, the lowest first.
fn stored(row: &[u8; ROW], at: usize) -> u32
    requires { at + 8 ≤ 120 }
{
    u32::from_le_bytes([
        byte(row, at),
        byte(row, at + 2),
        byte(row, at + 4),
        byte(row, at + 6),
    ])
}

// What the source's line says.
pub(crate) fn offset(row: &[u8; ROW]) -> u32 {
    number(row, OFFSET)
}

pub(crate) fn symbol(row: &[u8; ROW]) -> u32 {
    number(row, SYMBOL)
}

pub(crate) fn key(row: &[u8; ROW]) -> u8 {
    digit(row[KEY])
}

pub(crate) fn address_diversity(row: &[u8; ROW]) -> u8 {
    digit(row[ADDRESS_DIVERSITY])
}

// The lower and the upper byte of the diversity.
pub(crate) fn diversity_low(row: &[u8; ROW]) -> u8 {
    byte(row, DIVERSITY + 2)
}

pub(crate) fn diversity_high(row: &[u8; ROW]) -> u8 {
    byte(row, DIVERSITY)
}

pub(crate) fn addend(row: &[u8; ROW]) -> u64 {
    (number(row, ADDEND) as u64) * 0x1_0000_0000 + (number(row, ADDEND + 8) as u64)
}

// The upper half of the word that the assembler stored.
pub(crate) fn upper_half(row: &[u8; ROW]) -> u32 {
    stored(row, WORD + 8)
}

// Puts the record's bytes at `at`.
pub(crate) fn put_record(row: &[u8; ROW], records: &mut [u8], at: usize)
    requires { at + 8 ≤ length records.old }
{
    write32(records, at, stored(row, RECORD));
    write32(records, at + 4, stored(row, RECORD + 8));
}

// Puts the word's bytes at their place in the section, if it lies there.
pub(crate) fn put_word(row: &[u8; ROW], contents: &mut [u8]) {
    let at = offset(row) as usize;
    if at + 8 > contents.len() {
        return;
    }
    write32(contents, at, stored(row, WORD));
    write32(contents, at + 4, stored(row, WORD + 8));
}
