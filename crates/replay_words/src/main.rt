// Replays data/words: what an assembler and a disassembler say of A64 words. tools/make-words makes that list and says what its rows hold.
#![tactic(auto)]

ghost use Rattle.std.specs.Prelude.{◌≤◌, ◌<◌, length};

use arm64_insn::add::Add;
use arm64_insn::adrp::Adrp;
use arm64_insn::ldst::LoadStore;
use arm64_insn::stub::Words3;
use arm64_ldst_table::lookup;
use std::io::{Read, Write};
use std::{fs, io};
use text_io::read_full;

// What no row has as its answer.
const NO_ANSWER: u64 = u64::MAX;

// The most rows.
const MOST: u64 = 1_000_000;

// The value of a hexadecimal digit, of lower case.
fn digit(b: u8) -> u32
    ensures { result < 16 }
{
    u32::from((b % 16 + b / 64 * 9) % 16)
}

// The number of eight digits, and that of sixteen.
fn hex8(digits: &[u8]) -> u32 {
    let mut n: u32 = 0;
    for b in digits {
        n = (n << 4) | digit(*b);
    }
    n
}

fn hex16(digits: &[u8]) -> u64
    requires { 8 ≤ length digits.now }
{
    (u64::from(hex8(&digits[..8])) << 32) | u64::from(hex8(&digits[8..]))
}

// The value of a flag that is set, else 0.
fn flag(is_set: bool, value: u64) -> u64
    ensures { result ≤ value }
{
    if is_set { value } else { 0 }
}

fn adr_word(rd: u32, target: u64, pc: u64) -> Option<u64> {
    if rd < 32 {
        Some(u64::from(arm64_insn::adrp::adr(rd, target, pc)))
    } else {
        None
    }
}

fn page_of(word: u32, pc: u64, rd: u64) -> Option<u64> {
    let a = Adrp::decode(word)?;
    (u64::from(a.rd) == rd).then_some(a.page(pc))
}

fn immediate_of(word: u32, rd: u64, rn: u64) -> Option<u64> {
    let a = Add::decode(word)?;
    (u64::from(a.rd) == rd && u64::from(a.rn) == rn).then_some(a.imm)
}

fn offset_word(word: u32, val: u64) -> Option<u64> {
    let fixed = arm64_insn::fix::write_add_ldst_word(word, val).ok()?;
    Some(u64::from(fixed))
}

fn access_of(word: u32, registers: u64, offset: u64) -> Option<u64> {
    let l = LoadStore::decode(word)?;
    if registers / 32 != u64::from(l.reg) || registers % 32 != u64::from(l.base) {
        return None;
    }
    if offset != l.offset {
        return None;
    }
    Some(
        flag(l.is_store, 0x100)
            + flag(l.is_float, 0x200)
            + flag(l.is_ldrsw, 0x400)
            + l.size % 0x100,
    )
}

fn literal_word(word: u32, target: u64, pc: u64) -> Option<u64> {
    let l = LoadStore::decode(word)?;
    if l.reg < 32 && l.has_literal_form() {
        Some(u64::from(l.to_literal(target, pc)))
    } else {
        None
    }
}

fn based_word(word: u32, base: u64, offset: u64) -> Option<u64> {
    let l = LoadStore::decode(word)?;
    let size = l.size;
    if size == 0 || base > 31 {
        return None;
    }
    if offset / size > 4095 {
        return None;
    }
    Some(u64::from(l.with_base(base as u32, offset)))
}

fn one_of(words: Words3, k: u32) -> Option<u64> {
    match k {
        0 => Some(u64::from(words.first)),
        1 => Some(u64::from(words.second)),
        2 => Some(u64::from(words.third)),
        _ => None,
    }
}

// 3 for ADRP, 4 for ADD, else 0.
fn other_class(word: u32) -> u64 {
    if Adrp::decode(word).is_some() {
        3
    } else if Add::decode(word).is_some() {
        4
    } else {
        0
    }
}

// The vector register and LDRSW flags, where the class and the bytes moved are those of the row.
fn class_of(word: u32, class: u64, bytes: u64) -> Option<u64> {
    let Some(l) = LoadStore::decode(word) else {
        return (class == other_class(word) && bytes == 0).then_some(0);
    };
    if class != 1 + flag(l.is_store, 1) || bytes != l.size {
        return None;
    }
    Some(flag(l.is_float, 1) + flag(l.is_ldrsw, 2))
}

// The same by the table of classes.
fn table_class_of(word: u32, class: u64, bytes: u64) -> Option<u64> {
    let entry = u64::from(lookup(word));
    if entry == 0 {
        return (class == other_class(word) && bytes == 0).then_some(0);
    }
    (class == 1 + entry / 4 % 2 && bytes == entry / 8).then_some(entry / 2 % 2 + entry % 2 * 2)
}

// An answer that two agree on.
fn common(a: Option<u64>, b: Option<u64>) -> Option<u64> {
    if a == b { a } else { None }
}

// What the code says of a row, by its two letters; none where another column differs.
fn answer(kind: &[u8], word: u32, x: u64, y: u64) -> Option<u64> {
    match kind {
        b"ar" => adr_word(word, x, y),
        b"ap" => Some(u64::from(arm64_insn::fix::write_adrp_word(word, x, y))),
        b"pg" => page_of(word, x, y),
        b"br" => Some(u64::from(arm64_insn::branch::branch_word(word, x))),
        b"hl" => Some(u64::from(arm64_insn::branch::helper_word(word == 1, x))),
        b"of" => offset_word(word, x),
        b"rx" => Some(u64::from(arm64_insn::fix::relaxed_word(word, x))),
        b"ad" => immediate_of(word, x, y),
        b"ls" => access_of(word, x, y),
        b"li" => literal_word(word, x, y),
        b"ba" => based_word(word, x, y),
        b"su" => one_of(arm64_insn::stub::stub_words(x, y), word),
        b"th" => one_of(arm64_insn::stub::thunk_words(x, y), word),
        b"co" if word == 0 => Some(u64::from(arm64_insn::fix::NOP)),
        b"co" => Some(u64::from(arm64_insn::fix::IS_ENABLED)),
        b"cl" => common(class_of(word, x, y), table_class_of(word, x, y)),
        _ => None,
    }
}

// Whether the code says of a row what the row has.
fn holds(row: &[u8; 108]) -> bool {
    let said = answer(
        &row[..2],
        hex8(&row[3..11]),
        hex16(&row[12..28]),
        hex16(&row[29..45]),
    );
    said.unwrap_or(NO_ANSWER) == hex16(&row[46..62])
}

// Reads a row, and writes it out if it does not hold; none at the list's end.
fn replay<R: Read, W: Write>(from: &mut R, to: &mut W) -> io::Result<Option<bool>> {
    let mut row = [0u8; 108];
    let n = read_full(from, &mut row)?;
    if n < 108 {
        return Ok(None);
    }
    let is_held = holds(&row);
    if !is_held {
        to.write_all(&row)?;
    }
    Ok(Some(is_held))
}

fn print_held<W: Write>(to: &mut W, held: u64, rows: u64) -> io::Result<()> {
    writeln!(to, "{held} of {rows} rows hold")
}

// Replays the rows, and writes how many held, of how many.
fn replay_all<R: Read, W: Write>(from: &mut R, to: &mut W) -> io::Result<()> {
    let mut held: u64 = 0;
    for rows in 0..MOST {
        let Some(is_held) = replay(from, to)? else {
            return print_held(to, held, rows);
        };
        held += u64::from(is_held);
    }
    print_held(to, held, MOST)
}

fn main(rt: HostRuntime) -> io::Result<()> {
    let mut words = fs::open(&rt, "words")?;
    replay_all(&mut words, &mut rt.stdout())
}
