// The checks of one relocation record (arch/x86_64.rs, `read_relocs`): numbers 5, 3 and 7.
ghost use Rattle.std.specs.Prelude.{◌≡◌};
ghost use Rattle.x86_64_reader.specs.Record.{check_reloc};

use crate::addend::width;
use crate::support::is_supported;
use arch::target::has_target;
use macho::mach_rel::MachRel;
use macho::refusal::Refusal;

// A record of a section of `size` bytes, where there are `count` sections.
#[tactic(auto, using(crate::proofs::Steps::width_most), unfolding(crate::specs::Record::check_reloc, util::specs::Choice::choose))]
pub fn check_reloc(r: MachRel, size: usize, count: usize) -> Result<(), Refusal>
    ensures { result ≡ check_reloc size count r }
{
    if !is_supported(r) {
        return Err(Refusal::Unsupported);
    }
    if size < r.offset as usize + width(r.p2size()) {
        return Err(Refusal::Bounds);
    }
    if !has_target(r, count) {
        return Err(Refusal::NoSection);
    }
    Ok(())
}
