// Relocation records into entries (arch/arm64.rs, `read_relocs`): the reader of `arch` with this machine's step.
ghost use Rattle.std.specs.Prelude.{◌≡◌, false};
ghost use Rattle.arch.specs.Table.{records_of};
ghost use Rattle.arm64_reader.specs.Read.{answer_to, slots_to};
ghost use Rattle.arm64_reader.specs.Record.{step_at};
ghost use Rattle.arm64_reader.specs.Onward.{step-onward};

use crate::record::{enter_one, read_one};
use arch::lent::Lent;
use arch::reader;
use arch::reader::Machine;
use macho::refusal::Refusal;
use macho::reloc::Reloc;

// The machine's step, which may take two records.
#[derive(Clone, Copy)]
struct Arm64;

impl Machine for Arm64 {
    ghost step = { λ m lent. step_at lent.contents.now lent.sections.now false (records_of lent.records.now) };

    fn check(&self, lent: &Lent<'_>, i: usize) -> Result<usize, Refusal> {
        let (_, next) = read_one(lent.contents, lent.records, lent.sections, i)?;
        Ok(next)
    }

    fn enter(&self, lent: &Lent<'_>, i: usize) -> Result<(Reloc, usize), Refusal> {
        enter_one(lent.contents, lent.records, lent.sections, i)
    }

    ghost onward = { λ m lent. step-onward lent.contents.now lent.sections.now false (records_of lent.records.now) };
}

// Reads relocation records of a section into entries. `sections` has the address of each section. A refusal leaves the slots as they were.
#[tactic(auto, using(crate::proofs::Steps::table_is), unfolding(crate::specs::Read::read_relocs))]
pub fn read_relocs(
    contents: &[u8],
    records: &[u8],
    sections: &[u64],
    slots: &mut [u8],
) -> Result<usize, Refusal>
    ensures answer { result ≡ answer_to contents.now records.now sections.now slots.old }
    ensures slots { slots.new ≡ slots_to contents.now records.now sections.now slots.old }
{
    let lent = Lent {
        contents,
        records,
        sections,
    };
    reader::read_relocs(&Arm64, &lent, slots)
}
