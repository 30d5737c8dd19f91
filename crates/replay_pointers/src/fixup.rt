// Rows by apply_reloc_alloc.
ghost use Rattle.std.specs.Prelude.{◌*◌, ◌≤◌, length};

use crate::row;
use crate::row::ROW;
use arm64_fixup::walk::apply_reloc_alloc;
use macho::resolved::Resolved;
use util::{read32, wrapping_sub, write64};

// Three addresses, all different, none a multiple of 2^32.
const BASE: u64 = 0x1_8000_c000;

const TLS_BEGIN: u64 = 0x1_8001_4000;

const IMAGE_BASE: u64 = 0x1_8000_4000;

// Distances from the image base that the pointers take in turn.
const DISTANCES: [u32; 5] = [0, 0x8010, 0x7fff_ffff, 0x8000_0000, 0xffff_ffff];

// The distance that row k's pointer is to have.
fn distance(k: usize) -> u32 {
    DISTANCES[k % 5]
}

// Puts the resolved targets of all rows: each has the address that lies, with the row's addend, at its distance.
fn put_targets(rows: &[[u8; ROW]], targets: &mut [u8])
    requires { 48 * length rows.now ≤ length targets.old }
{
    for (k, row) in rows.iter().enumerate() {
        let address = IMAGE_BASE + distance(k) as u64;
        write64(
            targets,
            Resolved::SIZE * k,
            wrapping_sub(address, row::addend(row)),
        );
    }
}

// Whether a row's finished word has the distance in its lower half, and the upper half that the assembler stored.
fn word_agrees(row: &[u8; ROW], contents: &[u8], distance: u32) -> bool {
    let at = row::offset(row) as usize;
    if at + 8 > contents.len() {
        return false;
    }
    read32(contents, at) == distance && read32(contents, at + 4) == row::upper_half(row)
}

// How many rows from the front agree with the finished section.
fn agreeing(rows: &[[u8; ROW]], contents: &[u8]) -> usize
    ensures { result ≤ length rows.now }
{
    for (k, row) in rows.iter().enumerate() {
        if !word_agrees(row, contents, distance(k)) {
            return k;
        }
    }
    rows.len()
}

// Whether the fix-up takes every entry, and reports none.
fn fixes(
    rows: &[[u8; ROW]],
    contents: &mut [u8],
    entries: &[u8],
    targets: &mut [u8],
    slots: &mut [u8],
) -> bool
    requires { 48 * length rows.now ≤ length targets.old }
{
    put_targets(rows, targets);
    match apply_reloc_alloc(
        contents, BASE, TLS_BEGIN, IMAGE_BASE, entries, targets, slots,
    ) {
        Err(_) => false,
        Ok(n) => n == 0,
    }
}

// Fixes the section up by its entries. How many rows from the front agree with it; none where the fix-up refuses or reports.
pub(crate) fn agreed(rows: &[[u8; ROW]], contents: &mut [u8], entries: &[u8]) -> usize
    requires { 120 * length rows.now ≤ 65536 }
    ensures { result ≤ length rows.now }
{
    let mut targets = [0u8; 65536];
    let mut slots = [0u8; 65536];
    let len = Resolved::SIZE * rows.len();
    if !fixes(rows, contents, entries, &mut targets[0..len], &mut slots) {
        return 0;
    }
    agreeing(rows, contents)
}
