// The reader of a payload: one walk that checks, one that fills.
ghost use Rattle.std.specs.Prelude.{◌≡◌, ◌≤◌, length, drop};
ghost use Rattle.std.proofs.lemmas.List.Edits.{sets};
ghost use Rattle.uleb.specs.Values.{values_of};
ghost use Rattle.hint_payload.specs.Payload.{all_zero, after_close, ends_in, payload_of, first_values};
ghost use Rattle.hint_payload.specs.Answer.{count_in, count_after, read_to, row_to};

use crate::expected::Expected;
use macho::list::MOST_RECORDS;
use macho::refusal::Refusal;
use uleb::read_uleb;

// Whether every byte from `at` on is zero.
fn all_zero(bytes: &[u8], at: usize) -> bool
    requires { at ≤ length bytes.now }
    ensures { result ≡ all_zero (drop at bytes.now) }
{
    bytes[at..].iter().all(|byte| *byte == 0)
}

// The answer for a payload that kind 0 closes before `at`, after so many values.
#[tactic(auto, unfolding(util::specs::Choice::choose))]
fn after_close(payload: &[u8], at: usize, count: usize) -> Result<usize, Refusal>
    requires { at ≤ length payload.now }
    ensures { result ≡ count_after count (after_close (drop at payload.now)) }
{
    if all_zero(payload, at) {
        Ok(count)
    } else {
        Err(Refusal::Trailing)
    }
}

// The answer for a payload that ends after so many values; after kind 0 it is not asked for.
fn at_end(expected: Expected, count: usize) -> Result<usize, Refusal>
    ensures { result ≡ count_after count (ends_in expected) }
{
    match expected {
        Expected::Kind => Ok(count),
        Expected::Count | Expected::Address(_) | Expected::Zeros => Err(Refusal::Malformed),
    }
}

// How many values a payload has, or why it is refused.
fn check_payload(payload: &[u8]) -> Result<usize, Refusal>
    ensures { result ≡ count_in (payload_of payload.now) }
{
    let mut at = 0;
    let mut count = 0;
    let mut expected = Expected::Kind;
    while at < payload.len() {
        let (value, next) = read_uleb(payload, at).ok_or(Refusal::Malformed)?;
        expected = expected.after(value);
        at = next;
        if let Expected::Zeros = expected {
            return after_close(payload, at, count);
        }
        count += 1;
    }
    at_end(expected, count)
}

// Puts the first values of a payload into the slots.
fn fill(payload: &[u8], slots: &mut [u64], count: usize)
    requires { count ≤ length slots.old }
    ensures { slots.new ≡ sets slots.old 0 (first_values count (values_of payload.now)) }
{
    let mut at = 0;
    for i in 0..count {
        let Some((value, next)) = read_uleb(payload, at) else {
            return;
        };
        slots[i] = value;
        at = next;
    }
}

// Reads a payload into slots, a row of kind, count and addresses for each hint, and answers how many values it filled.
pub fn read_hints(payload: &[u8], slots: &mut [u64]) -> Result<usize, Refusal>
    ensures answer { result ≡ read_to payload.now (length slots.old) }
    ensures slots { slots.new ≡ row_to payload.now slots.old }
{
    if MOST_RECORDS < payload.len() {
        return Err(Refusal::Lengths);
    }
    if slots.len() < payload.len() {
        return Err(Refusal::Slots);
    }
    let count = check_payload(payload)?;
    fill(payload, slots, count);
    Ok(count)
}
