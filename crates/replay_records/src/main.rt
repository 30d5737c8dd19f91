// Replays data/records.txt, which tools/make-records makes: rows that pair the bytes of Mach-O objects with what the LLVM tools
// print of them. Writes how many rows agree with the crate macho, or the first that does not.
#![tactic(auto)]

use macho::consts;
use macho::hint::word_count;
use macho::mach_rel::MachRel;
use std::io::Write;
use std::{fs, io};
use text_io::read_full;
use text_io::row::{byte, digit, number, print_row};

// A row, with its newline.
const ROW: usize = 78;

// The numbers of types and kinds, in the order of the rows `n`.
const NUMBERS: [u8; 29] = [
    consts::ARM64_RELOC_UNSIGNED,
    consts::ARM64_RELOC_SUBTRACTOR,
    consts::ARM64_RELOC_BRANCH26,
    consts::ARM64_RELOC_PAGE21,
    consts::ARM64_RELOC_PAGEOFF12,
    consts::ARM64_RELOC_GOT_LOAD_PAGE21,
    consts::ARM64_RELOC_GOT_LOAD_PAGEOFF12,
    consts::ARM64_RELOC_POINTER_TO_GOT,
    consts::ARM64_RELOC_TLVP_LOAD_PAGE21,
    consts::ARM64_RELOC_TLVP_LOAD_PAGEOFF12,
    consts::ARM64_RELOC_ADDEND,
    consts::LOH_ARM64_ADRP_ADRP,
    consts::LOH_ARM64_ADRP_LDR,
    consts::LOH_ARM64_ADRP_ADD_LDR,
    consts::LOH_ARM64_ADRP_LDR_GOT_LDR,
    consts::LOH_ARM64_ADRP_ADD_STR,
    consts::LOH_ARM64_ADRP_LDR_GOT_STR,
    consts::LOH_ARM64_ADRP_ADD,
    consts::LOH_ARM64_ADRP_LDR_GOT,
    consts::X86_64_RELOC_UNSIGNED,
    consts::X86_64_RELOC_SIGNED,
    consts::X86_64_RELOC_BRANCH,
    consts::X86_64_RELOC_GOT_LOAD,
    consts::X86_64_RELOC_GOT,
    consts::X86_64_RELOC_SUBTRACTOR,
    consts::X86_64_RELOC_SIGNED_1,
    consts::X86_64_RELOC_SIGNED_2,
    consts::X86_64_RELOC_SIGNED_4,
    consts::X86_64_RELOC_TLV,
];

// The record whose bytes a row has.
fn record_of(row: &[u8; ROW]) -> MachRel {
    let bytes = [
        byte(row, 2),
        byte(row, 4),
        byte(row, 6),
        byte(row, 8),
        byte(row, 10),
        byte(row, 12),
        byte(row, 14),
        byte(row, 16),
    ];
    MachRel::read(&bytes, 0)
}

// Whether a record's bytes say what llvm-readobj prints.
fn record_agrees(row: &[u8; ROW]) -> bool {
    let r = record_of(row);
    let is_pcrel = digit(row[28]);
    let p2size = digit(row[30]);
    let is_extern = digit(row[32]);
    r.offset == number(row, 19)
        && u8::from(r.is_pcrel()) == is_pcrel
        && r.p2size() == u32::from(p2size)
        && u8::from(r.is_extern()) == is_extern
        && r.form() == u32::from(is_pcrel) + 2 * u32::from(p2size) + 8 * u32::from(is_extern)
        && r.ty() == byte(row, 34)
        && r.idx() == number(row, 37)
}

// Whether a type or kind has the number that the tools print for its name.
fn name_agrees(row: &[u8; ROW]) -> bool {
    let n = byte(row, 5);
    NUMBERS
        .get(usize::from(byte(row, 2)))
        .is_some_and(|found| *found == n)
}

// Whether a hint of a kind has as many words as llvm-objdump prints arguments.
fn hint_agrees(row: &[u8; ROW]) -> bool {
    let kind = byte(row, 2);
    kind == byte(row, 5) && word_count(kind) == byte(row, 8)
}

fn row_agrees(row: &[u8; ROW]) -> bool {
    match row[0] {
        b'r' => record_agrees(row),
        b'n' => name_agrees(row),
        b'h' => hint_agrees(row),
        _ => false,
    }
}

// How many rows have a letter.
fn count_of(rows: &[[u8; ROW]], letter: u8) -> usize {
    rows.iter().filter(|row| row[0] == letter).count()
}

fn print_replay<W: Write>(to: &mut W, s: &[u8]) -> io::Result<()> {
    let (rows, rest) = s.as_chunks::<ROW>();
    for row in rows {
        if !row_agrees(row) {
            return print_row(to, row);
        }
    }
    if !rest.is_empty() {
        return print_row(to, rest);
    }
    writeln!(to, "{} records agree", count_of(rows, b'r'))?;
    writeln!(
        to,
        "{} numbers of types and kinds agree",
        count_of(rows, b'n')
    )?;
    writeln!(to, "{} word counts agree", count_of(rows, b'h'))
}

fn main(rt: HostRuntime) -> io::Result<()> {
    let mut file = fs::File::open(&rt, "records.txt")?;
    let mut buf = [0u8; 65536];
    let n = read_full(&mut file, &mut buf)?;
    print_replay(&mut rt.stdout(), &buf[..n])
}
