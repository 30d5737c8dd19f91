// The checks of one relocation record (arch/arm64.rs, `check_reloc`).
ghost use Rattle.std.specs.Prelude.{◌≡◌};
ghost use Rattle.arm64_reader.specs.Check.{loaded_bytes, got_fits, tlvp_fits, pointer32, word_check, check_reloc};

use crate::support::is_supported;
use arm64_insn::add::is_add_either;
use arm64_insn::ldst::LoadStore;
use macho::consts::{
    ARM64_RELOC_GOT_LOAD_PAGEOFF12, ARM64_RELOC_TLVP_LOAD_PAGEOFF12, ARM64_RELOC_UNSIGNED,
};
use macho::mach_rel::MachRel;
use macho::refusal::Refusal;
use util::read32;

// The bytes that a word loads, 0 where it is no load.
#[tactic(auto, unfolding(crate::specs::Check::loaded_bytes, util::specs::Choice::choose))]
fn loaded_bytes(word: u32) -> u64
    ensures { result ≡ loaded_bytes word }
{
    match LoadStore::decode(word) {
        Some(ls) if !ls.is_store => ls.size,
        _ => 0,
    }
}

// Whether a GOT page offset may stand on a word: "add Wd|Xd, Wn|Xn, #imm" with an unshifted immediate, or an 8-byte load.
#[tactic(auto, unfolding(crate::specs::Check::got_fits, util::specs::Choice::choose))]
fn got_fits(word: u32) -> bool
    ensures { result ≡ got_fits word }
{
    is_add_either(word) || loaded_bytes(word) == 8
}

// Whether a TLVP page offset may stand on a word: a load.
#[tactic(auto, unfolding(crate::specs::Check::tlvp_fits, util::specs::Choice::choose))]
fn tlvp_fits(word: u32) -> bool
    ensures { result ≡ tlvp_fits word }
{
    loaded_bytes(word) != 0
}

// A 4-byte pointer that is no term of a difference.
#[tactic(auto, unfolding(crate::specs::Check::pointer32, util::specs::Choice::choose))]
fn is_pointer32(r: MachRel, subtracted: bool) -> bool
    ensures { result ≡ pointer32 r subtracted }
{
    r.ty() == ARM64_RELOC_UNSIGNED && r.p2size() == 2 && !subtracted
}

// A page offset against the word that it stands on. `loc` are the contents from the record's offset on.
#[tactic(auto, unfolding(crate::specs::Check::word_check, util::specs::Choice::choose))]
fn check_word(ty: u8, loc: &[u8]) -> Result<(), Refusal>
    ensures { result ≡ word_check ty loc.now }
{
    if loc.len() < 4 {
        return Err(Refusal::Bounds);
    }
    let word = read32(loc, 0);
    let fits = if ty == ARM64_RELOC_GOT_LOAD_PAGEOFF12 {
        got_fits(word)
    } else {
        tlvp_fits(word)
    };
    if fits { Ok(()) } else { Err(Refusal::Unfit) }
}

// A record against its form, the record before it and the word that it stands on.
#[tactic(auto, unfolding(crate::specs::Check::check_reloc, util::specs::Choice::choose))]
pub fn check_reloc(r: MachRel, subtracted: bool, loc: &[u8]) -> Result<(), Refusal>
    ensures { result ≡ check_reloc r subtracted loc.now }
{
    if !is_supported(r) || is_pointer32(r, subtracted) {
        return Err(Refusal::Unsupported);
    }
    let ty = r.ty();
    match ty {
        ARM64_RELOC_GOT_LOAD_PAGEOFF12 | ARM64_RELOC_TLVP_LOAD_PAGEOFF12 => check_word(ty, loc),
        _ => Ok(()),
    }
}
