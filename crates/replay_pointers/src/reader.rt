// Rows by read_relocs.
ghost use Rattle.std.specs.Prelude.{◌+◌, ◌*◌, ◌≤◌, length};

use crate::row;
use crate::row::ROW;
use arm64_reader::read::read_relocs;
use macho::consts::ARM64_RELOC_AUTHENTICATED_POINTER;
use macho::mach_rel::MachRel;
use macho::reloc::Reloc;

// Puts the words of all rows into the section, and their records into its table.
fn put_object(rows: &[[u8; ROW]], contents: &mut [u8], records: &mut [u8])
    requires { 8 * length rows.now ≤ length records.old }
{
    for (k, row) in rows.iter().enumerate() {
        row::put_word(row, contents);
        row::put_record(row, records, MachRel::SIZE * k);
    }
}

// Whether the entry at `at` is what a row says, field by field.
fn entry_agrees(row: &[u8; ROW], entries: &[u8], at: usize) -> bool
    requires { at + 24 ≤ length entries.now }
{
    let entry = Reloc::read(entries, at);
    entry.offset == row::offset(row)
        && entry.ty == ARM64_RELOC_AUTHENTICATED_POINTER
        && entry.size == 8
        && entry.is_pcrel == 0
        && entry.is_subtracted == 0
        && entry.target == row::symbol(row)
        && entries[at + 12] == row::diversity_low(row)
        && entries[at + 13] == row::diversity_high(row)
        && entries[at + 14] == row::address_diversity(row)
        && entries[at + 15] == row::key(row)
        && entry.addend == row::addend(row)
}

// How many rows from the front agree with their entries.
fn agreeing(rows: &[[u8; ROW]], entries: &[u8]) -> usize
    requires { 24 * length rows.now ≤ length entries.now }
    ensures { result ≤ length rows.now }
{
    for (k, row) in rows.iter().enumerate() {
        if !entry_agrees(row, entries, Reloc::SIZE * k) {
            return k;
        }
    }
    rows.len()
}

// Whether the reader takes every record of the rows' object.
fn reads(rows: &[[u8; ROW]], contents: &mut [u8], records: &mut [u8], entries: &mut [u8]) -> bool
    requires { 8 * length rows.now ≤ length records.old }
{
    let sections = [0u64; 1];
    put_object(rows, contents, records);
    match read_relocs(contents, records, &sections, entries) {
        Err(_) => false,
        Ok(n) => n == rows.len(),
    }
}

// Makes the section and its entries of the rows. How many rows from the front agree with the entries; none where the reader refuses.
pub(crate) fn agreed(rows: &[[u8; ROW]], contents: &mut [u8], entries: &mut [u8]) -> usize
    requires { (120 * length rows.now ≤ 65536) × (24 * length rows.now ≤ length entries.old) }
    ensures { result ≤ length rows.now }
{
    let mut records = [0u8; 65536];
    let len = MachRel::SIZE * rows.len();
    if !reads(rows, contents, &mut records[0..len], entries) {
        return 0;
    }
    agreeing(rows, entries)
}
