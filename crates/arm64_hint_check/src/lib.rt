// Which number a hint run is turned down with (RULES 3.6, 3.20). Nothing is written here.
#![tactic(auto)]

ghost use Rattle.std.specs.Prelude.{◌≡◌, Bool, false, ◌<◌};
ghost use Rattle.macho.specs.declared.hint.HintInsn.{HintInsn};
ghost use Rattle.macho.specs.Hint.{hint_count};
ghost use Rattle.arm64_hint_order.specs.Cursor.{object_at};
ghost use Rattle.arm64_hint_order.specs.Walk.{grouped};
ghost use Rattle.arm64_hint_places.specs.Hint.{is_skipped, insns_in};
ghost use Rattle.arm64_hint_check.specs.Check.{is_list, check_lists, ends_past, names_absent, any_of, check_hint, check_to, check_all};
ghost use Rattle.arm64_hint_check.specs.Check.{check_slots, check_listed, checked_as};

use arm64_hint_places::is_skipped;
use macho::hint::{HintInsn, HintRecord};
use macho::list::MOST_RECORDS;
use macho::refusal::Refusal;
use macho::reloc::Reloc;
use macho::rule_record::RuleRecord;

// Whether len bytes are whole records of a size, at most 2^32 - 1 of them.
#[tactic(auto, unfolding(crate::specs::Check::is_list))]
fn is_list(len: usize, size: usize) -> bool
    requires { 0 < size }
    ensures { result ≡ is_list len size }
{
    len % size == 0 && len / size <= MOST_RECORDS
}

// The lengths of hints and entries.
#[tactic(auto, unfolding(crate::specs::Check::check_lists, util::specs::Choice::choose))]
fn check_lists(hints: usize, entries: usize) -> Result<(), Refusal>
    ensures { result ≡ check_lists hints entries }
{
    if is_list(hints, HintRecord::SIZE) && is_list(entries, Reloc::SIZE) {
        Ok(())
    } else {
        Err(Refusal::Lengths)
    }
}

// Whether a place's word ends past a part of len bytes.
fn ends_past(len: u32, i: HintInsn) -> bool
    ensures { result ≡ ends_past len i }
{
    (len as usize) < i.off as usize + 4
}

// Whether a place names an entry past the count.
fn names_absent(count: usize, i: HintInsn) -> bool
    ensures { result ≡ names_absent count i }
{
    i.rel != HintInsn::NO_ENTRY && count <= i.rel as usize
}

// Whether one of the places of a hint's words passes a test. The places are named, not sliced from an array, which would take longer.
fn any_place<F: Fn(HintInsn) -> bool>(h: HintRecord, test: F) -> bool
    requires worked { is_skipped h ≡ false }
    requires asked { F.IsAlwaysCallable test }
    ensures { (p : HintInsn → Bool) → ((i : HintInsn) (r : Bool) → F.post test i r → r ≡ p i) → result ≡ any_of p (insns_in h) }
{
    test(h.insn0) || test(h.insn1) || (h.n == 3 && test(h.insn2))
}

// The numbers of one hint, for an image of len bytes and a number of entries.
#[tactic(auto, unfolding(crate::specs::Check::check_hint, util::specs::Choice::choose))]
fn check_hint(len: usize, count: usize, h: HintRecord) -> Result<(), Refusal>
    ensures { result ≡ check_hint len count h }
{
    if is_skipped(h) {
        return Ok(());
    }
    if len < h.start as usize + h.len as usize {
        return Err(Refusal::Bounds);
    }
    if any_place(h, |i| ends_past(h.len, i)) {
        return Err(Refusal::Bounds);
    }
    if any_place(h, |i| names_absent(count, i)) {
        return Err(Refusal::NoEntry);
    }
    Ok(())
}

// The first refusal among the hints, or whether their object numbers never fall.
fn check_hints(len: usize, hints: &[u8], count: usize) -> Result<bool, Refusal>
    ensures { result
        ≡ checked_as
        (check_to len count hints.now (hint_count hints.now))
        (grouped (object_at hints.now) (hint_count hints.now)) }
{
    let n = hints.len() / HintRecord::SIZE;
    let mut grouped = true;
    let mut last = 0;
    for k in 0..n {
        let h = HintRecord::read(hints, HintRecord::SIZE * k);
        check_hint(len, count, h)?;
        grouped &= last <= h.object;
        last = h.object;
    }
    Ok(grouped)
}

// The first refusal of a run over an image of len bytes, with the entries' length in bytes; or whether the hints' object numbers never fall.
pub fn check_all(len: usize, hints: &[u8], entries: usize) -> Result<bool, Refusal>
    ensures { result ≡ checked_as (check_all len hints.now entries) (grouped (object_at hints.now) (hint_count hints.now)) }
{
    check_lists(hints.len(), entries)?;
    check_hints(len, hints, entries / Reloc::SIZE)
}

// The length of the slots, which get a record of each hint.
#[tactic(auto, unfolding(crate::specs::Check::check_slots, util::specs::Choice::choose))]
fn check_slots(hints: usize, slots: usize) -> Result<(), Refusal>
    ensures { result ≡ check_slots hints slots }
{
    if slots < RuleRecord::SIZE * (hints / HintRecord::SIZE) {
        return Err(Refusal::Slots);
    }
    Ok(())
}

// What check_all says, of a listed run, which is lent slots of so many bytes for its records.
pub fn check_listed(len: usize, hints: &[u8], entries: usize, slots: usize) -> Result<bool, Refusal>
    ensures { result
        ≡ checked_as (check_listed len hints.now entries slots) (grouped (object_at hints.now) (hint_count hints.now)) }
{
    check_lists(hints.len(), entries)?;
    check_slots(hints.len(), slots)?;
    check_hints(len, hints, entries / Reloc::SIZE)
}
