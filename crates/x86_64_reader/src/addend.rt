// What a relocation record adds: on x86_64 every record has its addend in the bytes that it relocates.
ghost use Rattle.std.specs.Prelude.{◌≡◌, ◌+◌, ◌≤◌, length};
ghost use Rattle.x86_64_reader.specs.Addend.{width_of, bias_of, embedded_at, own_in, added_by};
ghost use Rattle.macho.specs.MachRel.{p2size_of, type_of};

use macho::byte::read8;
use macho::consts::{X86_64_RELOC_SIGNED_1, X86_64_RELOC_SIGNED_2, X86_64_RELOC_SIGNED_4};
use macho::mach_rel::MachRel;
use util::{read32, read64, sign_extend, wrapping_add};

// How many bytes are read for a power of two: 1, 4 or 8.
#[tactic(auto, unfolding(crate::specs::Addend::width_of, util::specs::Choice::choose))]
pub fn width(p2size: u32) -> usize
    ensures { result ≡ width_of p2size }
{
    match p2size {
        0 => 1,
        2 => 4,
        _ => 8,
    }
}

// The bytes of the instruction that a type counts after its field, four bits for each type.
const BIAS: u64 = (1 << (4 * X86_64_RELOC_SIGNED_1))
    + (2 << (4 * X86_64_RELOC_SIGNED_2))
    + (4 << (4 * X86_64_RELOC_SIGNED_4));

// The bias of a record, by its type.
#[tactic(auto, unfolding(crate::specs::Addend::bias_of, util::specs::Choice::choose))]
fn reloc_bias(r: MachRel) -> u64
    ensures { result ≡ bias_of (type_of r.bits) }
{
    (BIAS >> (4 * r.ty())) % 16
}

// The signed number in the bytes at `at`.
#[tactic(auto, unfolding(crate::specs::Addend::embedded_at, crate::specs::Addend::width_of, util::specs::Choice::choose))]
fn embedded(contents: &[u8], at: usize, p2size: u32) -> u64
    requires { at + width_of p2size ≤ length contents.now }
    ensures { result ≡ embedded_at contents.now at p2size }
{
    match p2size {
        0 => sign_extend(read8(contents, at) as u64, 8),
        2 => sign_extend(read32(contents, at) as u64, 32),
        _ => read64(contents, at),
    }
}

// The number in a record's own bytes, with what its type counts after them.
fn own_addend(contents: &[u8], r: MachRel) -> u64
    requires { r.offset + width_of (p2size_of r.bits) ≤ length contents.now }
    ensures { result ≡ own_in contents.now r }
{
    wrapping_add(
        embedded(contents, r.offset as usize, r.p2size()),
        reloc_bias(r),
    )
}

// What a record adds: for a symbol that number; for a section the address that is meant, which a pc-relative field counts from its own end.
#[tactic(auto, unfolding(crate::specs::Addend::added_by, util::specs::Choice::choose))]
pub fn added_by(contents: &[u8], address: u64, r: MachRel) -> u64
    requires { r.offset + width_of (p2size_of r.bits) ≤ length contents.now }
    ensures { result ≡ added_by contents.now address r }
{
    let own = own_addend(contents, r);
    if r.is_pcrel() && !r.is_extern() {
        wrapping_add(wrapping_add(address, r.offset as u64 + 4), own)
    } else {
        own
    }
}
