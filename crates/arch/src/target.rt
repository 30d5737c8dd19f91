// What a relocation record refers to: a symbol or a section.
ghost use Rattle.std.specs.Prelude.{◌≡◌};
ghost use Rattle.macho.specs.MachRel.{idx_of};
ghost use Rattle.arch.specs.Target.{section_target, target_of, is_there};

use macho::mach_rel::MachRel;
use macho::refusal::Refusal;
use macho::reloc::TARGET_SECTION;
use util::wrapping_sub;

// The section that a record names by its ordinal, and an address less that section's own (input_files.rs).
pub fn section_target(sections: &[u64], r: MachRel, addend: u64) -> Result<(u32, u64), Refusal>
    ensures { result ≡ section_target sections.now (idx_of r.bits) addend }
{
    let Some(i) = r.idx().checked_sub(1) else {
        return Err(Refusal::NoSection);
    };
    let Some(address) = sections.get(i as usize) else {
        return Err(Refusal::NoSection);
    };
    Ok((TARGET_SECTION + i, wrapping_sub(addend, *address)))
}

// A record refers to either a symbol or a section: the target field of its entry, with bit 31 set for a section, and the entry's addend.
#[tactic(auto, unfolding(crate::specs::Target::target_of, util::specs::Choice::choose))]
pub fn target_of(sections: &[u64], r: MachRel, addend: u64) -> Result<(u32, u64), Refusal>
    ensures { result ≡ target_of sections.now r addend }
{
    if r.is_extern() {
        Ok((r.idx(), addend))
    } else {
        section_target(sections, r, addend)
    }
}

// Whether what a record names is there: a symbol is, whatever its number, and of `count` sections one by its ordinal.
pub fn has_target(r: MachRel, count: usize) -> bool
    ensures { result ≡ is_there count r }
{
    let ordinal = r.idx() as usize;
    r.is_extern() || (ordinal != 0 && ordinal <= count)
}
