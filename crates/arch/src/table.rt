// A table of relocation records.
ghost use Rattle.std.specs.Prelude.{◌≡◌, false, ◌<◌};
ghost use Rattle.arch.specs.Table.{record_count, records_of, record_at, subtracted_at, lengths_of};

use macho::list::MOST_RECORDS;
use macho::mach_rel::MachRel;
use macho::refusal::Refusal;
use macho::reloc::Reloc;

// Record i.
#[tactic(auto, using(crate::proofs::Records::record_is))]
pub fn record_at(records: &[u8], i: usize) -> MachRel
    requires { i < record_count records.now }
    ensures { result ≡ record_at (records_of records.now) i }
{
    MachRel::read(records, MachRel::SIZE * i)
}

// Whether the record directly before record i is of the machine's SUBTRACTOR type.
#[tactic(auto, unfolding(crate::specs::Table::subtracted_at, util::specs::Choice::choose))]
pub fn is_subtracted(records: &[u8], i: usize, subtractor: u8) -> bool
    requires { i < record_count records.now }
    ensures { result ≡ subtracted_at subtractor false (records_of records.now) i }
{
    i != 0 && record_at(records, i - 1).ty() == subtractor
}

// The lengths that a reader is lent: of the records and the slots in bytes, of the section list in addresses.
#[tactic(auto, unfolding(crate::specs::Table::lengths_of, util::specs::Choice::choose))]
pub fn check_lengths(records: usize, sections: usize, slots: usize) -> Result<(), Refusal>
    ensures { result ≡ lengths_of records sections slots }
{
    let count = records / MachRel::SIZE;
    if records % MachRel::SIZE != 0 || MOST_RECORDS < count || MOST_RECORDS < sections {
        return Err(Refusal::Lengths);
    }
    if slots / Reloc::SIZE < count {
        return Err(Refusal::Slots);
    }
    Ok(())
}
