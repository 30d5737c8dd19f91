// One step of a reader.
ghost use Rattle.std.specs.Prelude.{◌≡◌};
ghost use Rattle.arch.specs.Entry.{entry_of, targeted};

use crate::target::target_of;
use macho::mach_rel::MachRel;
use macho::refusal::Refusal;
use macho::reloc::Reloc;

// The entry of a record.
pub fn entry_of(r: MachRel, subtracted: bool, offset: u32, target: u32, addend: u64) -> Reloc
    ensures { result ≡ entry_of r subtracted offset target addend }
{
    Reloc {
        offset,
        ty: r.ty(),
        size: 1 << r.p2size(),
        is_pcrel: r.is_pcrel() as u8,
        is_subtracted: subtracted as u8,
        target,
        signing: 0,
        addend,
    }
}

// What stands at a record that passed its machine's checks: its entry, and `next`, the number of the record after it.
#[tactic(auto, unfolding(crate::specs::Entry::targeted))]
pub fn read_target(
    sections: &[u64],
    r: MachRel,
    subtracted: bool,
    offset: u32,
    addend: u64,
    next: usize,
) -> Result<(Reloc, usize), Refusal>
    ensures { result ≡ targeted sections.now r subtracted offset addend next }
{
    let (target, own) = target_of(sections, r, addend)?;
    Ok((entry_of(r, subtracted, offset, target, own), next))
}
