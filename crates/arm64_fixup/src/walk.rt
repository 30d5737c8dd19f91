// The fix-up of a section: a walk that checks every entry, then one that works them (apply_reloc_alloc).
ghost use Rattle.std.specs.Prelude.{◌≡◌, ◌+◌, ◌*◌, ◌≤◌, ◌<◌, ◌^◌, eqb, length};
ghost use Rattle.std.proofs.lemmas.List.Edits.{sets};
ghost use Rattle.macho.specs.Record.{list_bytes};
ghost use Rattle.macho.specs.Report.{report_size, report_bytes};
ghost use Rattle.arm64_fixup_entry.specs.Check.{check_of};
ghost use Rattle.arm64_fixup_entry.specs.Change.{bytes_in};
ghost use Rattle.arm64_fixup.specs.Walk.{entry_count, target_count, taken_by, check_all, stored, reports_of, change_by, fix_all};
ghost use Rattle.arm64_fixup.specs.Answer.{check_lists, filled, answer_to, section_to, slots_to};

use arm64_fixup_entry::change::{
    Change, Site, Write, authenticated_change, difference, silent, subtractor_value,
    unsigned_value, word_change,
};
use arm64_fixup_entry::check::{check_entry, subtracts};
use arm64_fixup_entry::target::{Bases, width_of};
use macho::consts::{ARM64_RELOC_AUTHENTICATED_POINTER, ARM64_RELOC_UNSIGNED};
use macho::list::MOST_RECORDS;
use macho::refusal::Refusal;
use macho::reloc::Reloc;
use macho::report::Report;
use macho::resolved::Resolved;
use util::{read32, write32, write64};

// The numbers of the lists' lengths.
#[tactic(auto, unfolding(crate::specs::Answer::check_lists, util::specs::Choice::choose))]
fn check_lists(entries: usize, targets: usize, slots: usize) -> Result<(), Refusal>
    ensures { result ≡ check_lists entries targets slots }
{
    let n = entries / Reloc::SIZE;
    if entries % Reloc::SIZE != 0
        || targets % Resolved::SIZE != 0
        || MOST_RECORDS < n
        || n != targets / Resolved::SIZE
    {
        return Err(Refusal::Lengths);
    }
    if slots < Report::SIZE * n {
        return Err(Refusal::Slots);
    }
    Ok(())
}

// How many entries the work of one takes: a SUBTRACTOR takes the next one too.
#[tactic(auto, unfolding(util::specs::Choice::choose))]
fn taken(ty: u8) -> usize
    ensures { result ≡ taken_by ty }
{
    if subtracts(ty) { 2 } else { 1 }
}

// The first walk: goes through all entries and writes nothing.
// Kept: a SUBTRACTOR takes two entries, so the step of either walk differs by the entry, and a range's does not.
fn check_all(len: usize, bases: Bases, entries: &[u8], targets: &[u8]) -> Result<(), Refusal>
    requires { entry_count entries.now ≡ target_count targets.now }
    ensures { result ≡ check_all len bases entries.now targets.now }
{
    let n = entries.len() / Reloc::SIZE;
    let mut i = 0;
    while i < n {
        let e = Reloc::read(entries, Reloc::SIZE * i);
        let t = Resolved::read(targets, Resolved::SIZE * i);
        check_entry(len, bases, e, t, i + 1 == n)?;
        i += taken(e.ty); // what a SUBTRACTOR takes is not looked at
    }
    Ok(())
}

// What entry i does.
#[tactic(auto, unfolding(arm64_fixup_entry::specs::Change::change_of, util::specs::Choice::choose))]
fn change_at(
    buf: &[u8],
    bases: Bases,
    entries: &[u8],
    targets: &[u8],
    i: usize,
    e: Reloc,
    t: Resolved,
) -> Change
    requires i_bound { (i < entry_count entries.now) × (entry_count entries.now < 2 ^ 32) × (entry_count entries.now ≡ target_count targets.now) }
    requires entries_value { check_of (length buf.now) bases e t (eqb (i + 1) (entry_count entries.now)) ≡ Ok tt }
    ensures { result ≡ change_by bases entries.now targets.now buf.now i e t }
{
    if e.ty == ARM64_RELOC_AUTHENTICATED_POINTER {
        return authenticated_change(bases, e, t);
    }
    if width_of(e, t) == 0 {
        return silent(Write::Nothing);
    }
    if e.ty == ARM64_RELOC_UNSIGNED {
        return silent(Write::Pointer(unsigned_value(bases, e, t)));
    }
    if subtracts(e.ty) {
        let next = Reloc::read(entries, Reloc::SIZE * (i + 1));
        let next_target = Resolved::read(targets, Resolved::SIZE * (i + 1));
        return difference(e, subtractor_value(t, next, next_target));
    }
    let at = e.offset as usize;
    let s = Site {
        entry: i as u32,
        addr: bases.base + e.offset as u64,
    };
    word_change(s, e, t, read32(buf, at))
}

// Stores what a change writes.
fn store(buf: &mut [u8], at: usize, w: Write)
    requires { at + bytes_in w ≤ length buf.old }
    ensures { buf.new ≡ stored buf.old at w }
{
    match w {
        Write::Nothing => {}
        Write::Word(v) => {
            write32(buf, at, v);
        }
        Write::Pointer(v) => {
            write64(buf, at, v);
        }
    }
}

// Stores what a change reports in the next slot, and counts it.
#[tactic(auto, unfolding(macho::specs::Record::list_bytes))]
fn tell(slots: &mut [u8], count: usize, told: Option<Report>) -> usize
    requires { report_size * count + report_size ≤ length slots.old }
    ensures count { result ≡ count + length (reports_of told) }
    ensures slots { slots.new ≡ sets slots.old (report_size * count) (list_bytes report_bytes (reports_of told)) }
{
    match told {
        None => count,
        Some(r) => {
            r.write(slots, Report::SIZE * count);
            count + 1
        }
    }
}

// The second walk, after the first has found nothing to turn down: works each entry on what those before it left.
fn work_all(buf: &mut [u8], bases: Bases, entries: &[u8], targets: &[u8], slots: &mut [u8]) -> usize
    requires targets_value { check_all (length buf.old) bases entries.now targets.now ≡ Ok tt }
    requires entries_value { (entry_count entries.now ≡ target_count targets.now) × (entry_count entries.now < 2 ^ 32)
        × (report_size * entry_count entries.now ≤ length slots.old) }
    ensures count { result ≡ length (fix_all bases entries.now targets.now buf.old).reports }
    ensures section { buf.new ≡ (fix_all bases entries.now targets.now buf.old).section }
    ensures slots { slots.new ≡ filled (fix_all bases entries.now targets.now buf.old) slots.old }
{
    let n = entries.len() / Reloc::SIZE;
    let mut i = 0;
    let mut count = 0;
    while i < n {
        let e = Reloc::read(entries, Reloc::SIZE * i);
        let t = Resolved::read(targets, Resolved::SIZE * i);
        let c = change_at(buf, bases, entries, targets, i, e, t);
        store(buf, e.offset as usize, c.write);
        count = tell(slots, count, c.told);
        i += taken(e.ty);
    }
    count
}

// Fixes a section's bytes by its entries and their resolved targets, one target an entry, and fills the slots with reports.
pub fn apply_reloc_alloc(
    buf: &mut [u8],
    base: u64,
    tls_begin: u64,
    image_base: u64,
    entries: &[u8],
    targets: &[u8],
    slots: &mut [u8],
) -> Result<usize, Refusal>
    ensures answer { result ≡ answer_to buf.old base tls_begin image_base entries.now targets.now slots.old }
    ensures buf { buf.new
        ≡ section_to buf.old base tls_begin image_base entries.now targets.now slots.old }
    ensures told { slots.new
        ≡ slots_to buf.old base tls_begin image_base entries.now targets.now slots.old }
{
    let bases = Bases {
        base,
        tls_begin,
        image_base,
    };
    check_lists(entries.len(), targets.len(), slots.len())?;
    check_all(buf.len(), bases, entries, targets)?;
    Ok(work_all(buf, bases, entries, targets, slots))
}
