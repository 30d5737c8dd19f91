// The writer of a payload.
ghost use Rattle.std.specs.Prelude.{◌≡◌, ◌*◌, ◌≤◌, length};
ghost use Rattle.util.specs.Puts.{Puts};
ghost use Rattle.uleb.specs.Shortest.{ulebs_of};
ghost use Rattle.hint_payload.specs.Row.{is_whole};
ghost use Rattle.hint_payload.specs.Answer.{row_check, write_to, bytes_to};

use crate::expected::Expected;
use macho::list::MOST_RECORDS;
use macho::refusal::Refusal;
use uleb::{MOST_BYTES, write_uleb};

// Whether a row is whole hints, none of kind 0.
fn is_whole(row: &[u64]) -> bool
    ensures { result ≡ is_whole row.now }
{
    let mut expected = Expected::Kind;
    for value in row {
        expected = expected.after(*value);
    }
    expected.is_kind()
}

// Whether a row is refused by 1.
#[tactic(auto, unfolding(crate::specs::Answer::row_check, util::specs::Choice::choose))]
fn check_row(row: &[u64]) -> Result<(), Refusal>
    ensures { result ≡ row_check row.now }
{
    if MOST_RECORDS < row.len() {
        return Err(Refusal::Lengths);
    }
    if is_whole(row) {
        return Ok(());
    }
    Err(Refusal::Lengths)
}

// Puts the values of a row at the start of out, and answers where they end.
fn put_row(row: &[u64], out: &mut [u8]) -> usize
    requires { 10 * length row.now ≤ length out.old }
    ensures { Puts out.old 0 (ulebs_of row.now) result out.new }
{
    let mut at = 0;
    for value in row {
        at = write_uleb(out, at, *value);
    }
    at
}

// Writes a row as a payload at the start of out, each value in its shortest spelling, and answers how many bytes that is.
pub fn write_hints(row: &[u64], out: &mut [u8]) -> Result<usize, Refusal>
    ensures answer { result ≡ write_to row.now (length out.old) }
    ensures out { out.new ≡ bytes_to row.now out.old }
{
    check_row(row)?;
    if out.len() / MOST_BYTES < row.len() {
        return Err(Refusal::Slots);
    }
    Ok(put_row(row, out))
}
