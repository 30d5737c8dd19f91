// Words with their page or page offset replaced.
ghost use Rattle.std.specs.Prelude.{◌≡◌};
ghost use Rattle.arm64_insn.specs.Fix.{adrp_with, scale_of, offset_with, relaxed_word};

use crate::add::Add;
use crate::adrp::Adrp;
use crate::ldst::LoadStore;
use crate::page::page_offset;

// What BRANCH26 writes at a probe's site, and what hints leave in place of a word.
pub const NOP: u32 = 0xd503_201f;

// "movz x0, #0": what BRANCH26 writes at an is-enabled site.
pub const IS_ENABLED: u32 = 0xd280_0000;

// The word of an ADRP at lo, pointed at hi's page (the Rust's write_adrp).
pub fn write_adrp_word(insn: u32, hi: u64, lo: u64) -> u32
    ensures { result ≡ adrp_with insn hi lo }
{
    (insn & !Adrp::IMM) + page_offset(hi, lo)
}

// log2 of the bytes that imm12 of a word counts.
fn scale_of(insn: u32) -> u32
    ensures { result ≡ scale_of insn }
{
    if insn & LoadStore::MASK == LoadStore::FIXED {
        if insn & LoadStore::QUAD_MASK == LoadStore::QUAD_FIXED {
            return 4;
        }
        return insn / 0x4000_0000 % 4;
    }
    0
}

// An ADD, LDR or STR with the page offset of val (the Rust's write_add_ldst).
pub fn write_add_ldst_word(insn: u32, val: u64) -> Result<u32, u32>
    ensures { result ≡ offset_with insn val }
{
    let size = 1u64 << scale_of(insn);
    if val % size != 0 {
        return Err(size as u32);
    }
    let imm = (val % 0x1000 / size) as u32;
    Ok((insn & !LoadStore::IMM12) + imm * 0x400)
}

// The LDR or ADD of a relaxed GOT load: "add Xn, Xm, #pageoff" of the same registers.
pub fn relaxed_word(insn: u32, target: u64) -> u32
    ensures { result ≡ relaxed_word insn target }
{
    Add::FIXED + insn % 0x400 + ((target % 0x1000) as u32) * 0x400
}
