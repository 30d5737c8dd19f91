// Relocation records into entries (arch/x86_64.rs, `read_relocs`): the reader of `arch` with this machine's step.
ghost use Rattle.std.specs.Prelude.{◌≡◌, false};
ghost use Rattle.arch.specs.Table.{records_of};
ghost use Rattle.x86_64_reader.specs.Onward.{step-onward};
ghost use Rattle.x86_64_reader.specs.Read.{answer_to, slots_to};
ghost use Rattle.x86_64_reader.specs.Record.{step_at};

use crate::addend::added_by;
use crate::check::check_reloc;
use arch::lent::Lent;
use arch::reader;
use arch::reader::Machine;
use arch::step::read_target;
use arch::table::{is_subtracted, record_at};
use macho::consts::X86_64_RELOC_SUBTRACTOR;
use macho::refusal::Refusal;
use macho::reloc::Reloc;

// The machine's step, which takes one record. `address` is the section's own.
#[derive(Clone, Copy)]
struct X86 {
    address: u64,
}

impl Machine for X86 {
    ghost step = { λ m lent. step_at lent.contents.now lent.sections.now m.address false (records_of lent.records.now) };

    #[tactic(auto, unfolding(crate::specs::Record::step_at))]
    fn check(&self, lent: &Lent<'_>, i: usize) -> Result<usize, Refusal> {
        check_reloc(
            record_at(lent.records, i),
            lent.contents.len(),
            lent.sections.len(),
        )?;
        Ok(i + 1)
    }

    fn enter(&self, lent: &Lent<'_>, i: usize) -> Result<(Reloc, usize), Refusal> {
        let r = record_at(lent.records, i);
        read_target(
            lent.sections,
            r,
            is_subtracted(lent.records, i, X86_64_RELOC_SUBTRACTOR),
            r.offset,
            added_by(lent.contents, self.address, r),
            i + 1,
        )
    }

    ghost onward = { λ m lent. step-onward lent.contents.now lent.sections.now m.address false (records_of lent.records.now) };
}

// Reads relocation records of a section into entries. `sections` has the address of each section, `address` is that of the section itself. A refusal leaves
// the slots as they were.
#[tactic(auto, using(crate::proofs::Steps::table_is), unfolding(crate::specs::Read::read_relocs))]
pub fn read_relocs(
    contents: &[u8],
    records: &[u8],
    sections: &[u64],
    address: u64,
    slots: &mut [u8],
) -> Result<usize, Refusal>
    ensures answer { result ≡ answer_to contents.now records.now sections.now address slots.old }
    ensures slots { slots.new ≡ slots_to contents.now records.now sections.now address slots.old }
{
    let lent = Lent {
        contents,
        records,
        sections,
    };
    reader::read_relocs(&X86 { address }, &lent, slots)
}
