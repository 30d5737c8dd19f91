// What stands at one relocation record (arch/arm64.rs, a turn of `read_relocs`).
ghost use Rattle.std.specs.Prelude.{◌≡◌, false, ◌+◌, ◌<◌, ◌≤◌, length, drop};
ghost use Rattle.macho.specs.Types.{ARM64_RELOC_SUBTRACTOR};
ghost use Rattle.arch.specs.Table.{record_at, record_count, records_of, subtracted_at};
ghost use Rattle.arch.specs.Walk.{Reads};
ghost use Rattle.arm64_reader.specs.Record.{addend_of, authenticated_record, entered, record_of, step_at};
ghost use Rattle.arm64_reader.specs.Fields.{own_of, given_of};

use crate::check::check_reloc;
use crate::plain::is_plain;
use arch::step::{entry_of, read_target};
use arch::table::{is_subtracted, record_at};
use macho::authenticated::{is_authenticated, signing_in};
use macho::consts::{
    ARM64_RELOC_ADDEND, ARM64_RELOC_AUTHENTICATED_POINTER, ARM64_RELOC_SUBTRACTOR,
    ARM64_RELOC_UNSIGNED,
};
use macho::mach_rel::MachRel;
use macho::refusal::Refusal;
use macho::reloc::Reloc;
use util::{read32, read64, sign_extend};

// An UNSIGNED record has its addend in the place that it relocates; another keeps the one that an ADDEND record gave.
#[tactic(auto, unfolding(crate::specs::Record::addend_of, util::specs::Choice::choose))]
fn addend_of(r: MachRel, loc: &[u8], addend: u64) -> Result<u64, Refusal>
    ensures { result ≡ addend_of r loc.now addend }
{
    if r.ty() != ARM64_RELOC_UNSIGNED {
        return Ok(addend);
    }
    if r.p2size() == 2 {
        if loc.len() < 4 {
            return Err(Refusal::Bounds);
        }
        return Ok(sign_extend(read32(loc, 0) as u64, 32));
    }
    if loc.len() < 8 {
        return Err(Refusal::Bounds);
    }
    Ok(read64(loc, 0))
}

// An entry's own record, with what goes with it: whether it is subtracted, the entry's offset, and the number of the record after it.
#[derive(Clone, Copy)]
struct Own {
    record: MachRel,
    subtracted: bool,
    offset: u32,
    next: usize,
}

impl Own {
    // Record j as the own record of an entry at an offset.
    fn at(records: &[u8], j: usize, offset: u32) -> Own
        requires { j < record_count records.now }
        ensures { (result.record ≡ record_at (records_of records.now) j)
            × (result.subtracted ≡ subtracted_at ARM64_RELOC_SUBTRACTOR false (records_of records.now) j)
            × (result.offset ≡ offset) × (result.next ≡ j + 1) }
    {
        Own {
            record: record_at(records, j),
            subtracted: is_subtracted(records, j, ARM64_RELOC_SUBTRACTOR),
            offset,
            next: j + 1,
        }
    }

    // An authenticated pointer has its addend, and how it is signed, in the place that it relocates. The Rust has no such type.
    #[tactic(auto, unfolding(crate::specs::Record::authenticated_record, util::specs::Choice::choose))]
    fn enter_authenticated(&self, loc: &[u8]) -> Result<(Reloc, usize), Refusal>
        ensures { result ≡ authenticated_record loc.now self.now.record self.now.subtracted self.now.offset self.now.next }
    {
        if loc.len() < 8 {
            return Err(Refusal::Bounds);
        }
        let word = read64(loc, 0);
        if !is_authenticated(word) {
            return Err(Refusal::NotAuthenticated);
        }
        let entry = Reloc {
            signing: signing_in(word),
            ..entry_of(
                self.record,
                self.subtracted,
                self.offset,
                self.record.idx(),
                sign_extend(word, 32),
            )
        };
        Ok((entry, self.next))
    }

    // The record's entry; `loc` are the contents from the entry's offset on.
    #[tactic(auto, unfolding(util::specs::Choice::choose))]
    fn enter(&self, loc: &[u8], sections: &[u64], addend: u64) -> Result<(Reloc, usize), Refusal>
        ensures { result ≡ entered loc.now sections.now self.now.record self.now.subtracted self.now.offset addend self.now.next }
    {
        if self.record.ty() == ARM64_RELOC_AUTHENTICATED_POINTER {
            return self.enter_authenticated(loc);
        }
        let own = addend_of(self.record, loc, addend)?;
        read_target(
            sections,
            self.record,
            self.subtracted,
            self.offset,
            own,
            self.next,
        )
    }

    // The same with the record's checks.
    #[tactic(auto, unfolding(crate::specs::Record::record_of))]
    fn read(&self, loc: &[u8], sections: &[u64], addend: u64) -> Result<(Reloc, usize), Refusal>
        ensures { result ≡ record_of loc.now sections.now self.now.record self.now.subtracted self.now.offset addend self.now.next }
    {
        check_reloc(self.record, self.subtracted, loc)?;
        self.enter(loc, sections, addend)
    }
}

// The contents from an offset on.
fn contents_from(contents: &[u8], offset: u32) -> &[u8]
    requires { offset ≤ length contents.now }
    ensures { result.now ≡ drop offset contents.now }
{
    let at = offset as usize;
    &contents[at..]
}

// The number of an entry's own record, where the entry starts at record i: the next one where that is ADDEND.
#[tactic(auto, unfolding(util::specs::Choice::choose))]
fn own_number(records: &[u8], i: usize) -> usize
    requires { i < record_count records.now }
    ensures { result ≡ own_of (records_of records.now) i }
{
    if record_at(records, i).ty() == ARM64_RELOC_ADDEND {
        i + 1
    } else {
        i
    }
}

// The addend that an entry's ADDEND record gives it, else 0.
#[tactic(auto, unfolding(util::specs::Choice::choose))]
fn given_addend(records: &[u8], i: usize) -> u64
    requires { i < record_count records.now }
    ensures { result ≡ given_of (records_of records.now) i }
{
    let r = record_at(records, i);
    if r.ty() == ARM64_RELOC_ADDEND {
        sign_extend(r.idx() as u64, 24)
    } else {
        0
    }
}

// What stands at record i. An ADDEND record gives its offset and its addend to the record after it.
pub fn read_one(
    contents: &[u8],
    records: &[u8],
    sections: &[u64],
    i: usize,
) -> Result<(Reloc, usize), Refusal>
    requires { i < record_count records.now }
    ensures { result ≡ step_at contents.now sections.now false (records_of records.now) i }
{
    let first = record_at(records, i);
    let offset = first.offset;
    if contents.len() < offset as usize {
        return Err(Refusal::Bounds);
    }
    if is_plain(first) {
        let subtracted = is_subtracted(records, i, ARM64_RELOC_SUBTRACTOR);
        return Ok((entry_of(first, subtracted, offset, first.idx(), 0), i + 1));
    }
    let j = own_number(records, i);
    if j < records.len() / MachRel::SIZE {
        let own = Own::at(records, j, offset);
        return own.read(
            contents_from(contents, offset),
            sections,
            given_addend(records, i),
        );
    }
    Err(Refusal::LoneAddend)
}

// The same of a record that is known to read, without the checks of its form and its word.
pub fn enter_one(
    contents: &[u8],
    records: &[u8],
    sections: &[u64],
    i: usize,
) -> Result<(Reloc, usize), Refusal>
    requires { (i < record_count records.now) × Reads (step_at contents.now sections.now false (records_of records.now) i) }
    ensures { result ≡ step_at contents.now sections.now false (records_of records.now) i }
{
    let offset = record_at(records, i).offset;
    if contents.len() < offset as usize {
        return Err(Refusal::Bounds);
    }
    let j = own_number(records, i);
    if j < records.len() / MachRel::SIZE {
        let own = Own::at(records, j, offset);
        return own.enter(
            contents_from(contents, offset),
            sections,
            given_addend(records, i),
        );
    }
    Err(Refusal::LoneAddend)
}
