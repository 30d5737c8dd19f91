// The hint run: the check of all hints, then their work.
ghost use Rattle.std.specs.Prelude.{◌≡◌, true, ◌+◌, ◌*◌, ◌^◌, ◌≤◌, ◌<◌, length, Ok};
ghost use Rattle.std.proofs.lemmas.List.Edits.{sets};
ghost use Rattle.util.specs.Choice.{choose};
ghost use Rattle.macho.specs.Hint.{hint_count};
ghost use Rattle.macho.specs.RuleRecord.{rule_record_size, rule_record_bytes};
ghost use Rattle.arm64_hint_order.specs.Cursor.{object_at, order_of};
ghost use Rattle.arm64_hint_order.specs.Walk.{grouped};
ghost use Rattle.arm64_hint_check.specs.Check.{check_all};
ghost use Rattle.arm64_hint_run.specs.Run.{worked, run_of, image_of};
ghost use Rattle.arm64_hint_run.specs.Records.{record_of, records_of, filled};

use arm64_hint_check::check_all;
use arm64_hint_order::Cursor;
use arm64_hint_rules::outcome::HintOutcome;
use arm64_hint_work::rule::{changed_of, rule_of};
use arm64_hint_work::tally::Tally;
use arm64_hint_work::work::work;
use macho::hint::object_at;
use macho::refusal::Refusal;
use macho::rule_record::RuleRecord;

// The record of hint k, by what came of it.
fn record_of(hints: &[u8], k: usize, o: HintOutcome) -> RuleRecord
    requires { (k < hint_count hints.now) × (k < 2 ^ 32) }
    ensures { result ≡ record_of hints.now k o }
{
    RuleRecord {
        position: k as u32,
        object: object_at(hints, k),
        rule: rule_of(o),
        changed: changed_of(o),
    }
}

// Stores the record of hint k as record i of the slots, where the run is listed.
fn list(slots: &mut [u8], lists: bool, i: usize, hints: &[u8], k: usize, o: HintOutcome)
    requires k_bound { (k < hint_count hints.now) × (k < 2 ^ 32) × (i < 2 ^ 32) }
    requires rule_record_size_in_bounds { lists ≡ true → rule_record_size * i + rule_record_size ≤ length slots.old }
    ensures { slots.new
        ≡ choose lists (sets slots.old (rule_record_size * i) (rule_record_bytes (record_of hints.now k o))) slots.old }
{
    if lists {
        let r = record_of(hints, k, o);
        r.write(slots, RuleRecord::SIZE * i);
    }
}

// Works all hints, objects by rising number, in each the two passes by list position, and fills the slots with their records where the run is listed.
// `rises` is whether the list's object numbers never fall.
pub fn work_and_list(
    image: &mut [u8],
    hints: &[u8],
    entries: &[u8],
    slots: &mut [u8],
    lists: bool,
    rises: bool,
) -> Tally
    requires entries_value { check_all (length image.old) hints.now (length entries.now) ≡ Ok tt }
    requires hints_in_bounds { lists ≡ true → rule_record_size * hint_count hints.now ≤ length slots.old }
    requires rises_value { rises ≡ grouped (object_at hints.now) (hint_count hints.now) }
    ensures tally { result ≡ (worked image.old hints.now entries.now (order_of hints.now)).tally }
    ensures image { image.new ≡ (worked image.old hints.now entries.now (order_of hints.now)).image }
    ensures slots { slots.new
        ≡ choose lists (filled (records_of image.old hints.now entries.now (order_of hints.now)) slots.old)
        slots.old }
{
    let mut c = Cursor::first(hints, rises);
    let mut tally = Tally {
        rewritten: 0,
        skipped: 0,
        declined: 0,
        turned_down: 0,
    };
    let mut count: usize = 0;
    while let Some((k, next)) = c.next(hints) {
        let o = work(image, hints, entries, k);
        tally = tally.add(o);
        list(slots, lists, count, hints, k, o);
        count += 1;
        c = next;
    }
    tally
}

// Works all hints as work_and_list does, of a run that is not listed: it touches no slot.
fn work_all(image: &mut [u8], hints: &[u8], entries: &[u8], rises: bool) -> Tally
    requires entries_value { check_all (length image.old) hints.now (length entries.now) ≡ Ok tt }
    requires rises_value { rises ≡ grouped (object_at hints.now) (hint_count hints.now) }
    ensures tally { result ≡ (worked image.old hints.now entries.now (order_of hints.now)).tally }
    ensures image { image.new ≡ (worked image.old hints.now entries.now (order_of hints.now)).image }
{
    let mut none = [0u8; 1];
    work_and_list(image, hints, entries, &mut none, false, rises)
}

// Works the hints on the image by the entries, unless something lent is turned down.
pub fn run(image: &mut [u8], hints: &[u8], entries: &[u8]) -> Result<Tally, Refusal>
    ensures answer { result ≡ run_of image.old hints.now entries.now }
    ensures image { image.new ≡ image_of image.old hints.now entries.now }
{
    let rises = check_all(image.len(), hints, entries.len())?;
    Ok(work_all(image, hints, entries, rises))
}
