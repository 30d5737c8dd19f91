// The reader of a table of relocation records, whatever the machine (`read_relocs` of arch/arm64.rs and of arch/x86_64.rs): one walk that checks and writes
// nothing, then one that fills.
ghost use Rattle.std.specs.Prelude.{◌≡◌, ℕ, ◌*◌, ◌<◌, ◌≤◌, length, Result};
ghost use Rattle.macho.specs.Reloc.{reloc_size};
ghost use Rattle.macho.specs.declared.refusal.Refusal.{Refusal};
ghost use Rattle.macho.specs.declared.reloc.Reloc.{Reloc};
ghost use Rattle.arch.specs.Table.{record_count};
ghost use Rattle.arch.specs.Walk.{Fills, Onward, Reads, answer_of, next_of, slots_after};
ghost use Rattle.arch.specs.Reader.{read_call, read_table};
ghost use Rattle.arch.specs.declared.lent.Lent.{Lent};

use crate::lent::Lent;
use crate::table::check_lengths;
use macho::mach_rel::MachRel;
use macho::refusal::Refusal;
use macho::reloc::Reloc;

// How a machine reads one record.
pub trait Machine {
    // what stands at record i
    ghost step: { Self → Lent → ℕ → Result (Reloc × ℕ) Refusal };

    // The checks of what stands at record i; the number of the record after it.
    fn check(&self, lent: &Lent<'_>, i: usize) -> Result<usize, Refusal>
        requires { i < record_count lent.now.records.now }
        ensures { result ≡ next_of (step self.now lent.now i) };

    // What stands at record i, which is known to read: its entry, and the number of the record after it.
    fn enter(&self, lent: &Lent<'_>, i: usize) -> Result<(Reloc, usize), Refusal>
        requires { (i < record_count lent.now.records.now) × Reads (step self.now lent.now i) }
        ensures { result ≡ step self.now lent.now i };

    // what reads goes on to a later record
    ghost onward: { (m : Self) (lent : Lent) → Onward (step m lent) };
}

// The walk that checks: all records, with nothing written.
fn check_walk<M: Machine>(machine: &M, lent: &Lent<'_>) -> Result<usize, Refusal>
    ensures { result ≡ answer_of (read_table (M.step machine.now lent.now) lent.now) }
{
    let n = lent.records.len() / MachRel::SIZE;
    let mut i = 0;
    let mut count = 0;
    while i < n {
        i = machine.check(lent, i)?;
        count += 1;
    }
    Ok(count)
}

// The walk that fills, after the first has found that every record reads.
fn fill_walk<M: Machine>(machine: &M, lent: &Lent<'_>, slots: &mut [u8])
    requires { Fills (read_table (M.step machine.now lent.now) lent.now)
        × (reloc_size * record_count lent.now.records.now ≤ length slots.old) }
    ensures { slots.new ≡ slots_after (read_table (M.step machine.now lent.now) lent.now) slots.old }
{
    let n = lent.records.len() / MachRel::SIZE;
    let mut i = 0;
    let mut count = 0;
    while i < n {
        let Ok((entry, next)) = machine.enter(lent, i) else {
            return;
        };
        entry.write(slots, Reloc::SIZE * count);
        i = next;
        count += 1;
    }
}

// Reads the relocation records of a section into entries. A refusal leaves the slots as they were.
pub fn read_relocs<M: Machine>(
    machine: &M,
    lent: &Lent<'_>,
    slots: &mut [u8],
) -> Result<usize, Refusal>
    ensures answer { result ≡ answer_of (read_call (M.step machine.now lent.now) lent.now slots.old) }
    ensures slots { slots.new ≡ slots_after (read_call (M.step machine.now lent.now) lent.now slots.old) slots.old }
{
    check_lengths(lent.records.len(), lent.sections.len(), slots.len())?;
    let entries = check_walk(machine, lent)?;
    fill_walk(machine, lent, slots);
    Ok(entries)
}
