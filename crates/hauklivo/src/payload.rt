// The reader and the writer of hint payloads.
ghost use Rattle.std.specs.Prelude.{◌≡◌};
ghost use Rattle.hint_payload.specs.Answer.{row_to, bytes_to};
ghost use Rattle.hauklivo.specs.Payload.{read_number_to, read_count_to, write_number_to, write_count_to};

use hint_payload::read::read_hints;
use hint_payload::write::write_hints;
use macho::refusal::settle;

// Reads a payload into a row of values, kind, count and addresses for each hint; `count` gets how many.
#[tactic(auto, using(crate::proofs::Lent::count_same))]
pub fn hauklivo_read_hints(payload: &[u8], slots: &mut [u64], count: &mut usize) -> u8
    ensures number { result ≡ read_number_to payload.now slots.old }
    ensures count { count.new ≡ read_count_to payload.now slots.old count.old }
    ensures slots { slots.new ≡ row_to payload.now slots.old }
{
    let answer = read_hints(payload, slots);
    settle(answer, count)
}

// Writes such a row as a payload, each value in its shortest spelling; `count` gets how many bytes that is.
#[tactic(auto, using(crate::proofs::Lent::count_same))]
pub fn hauklivo_write_hints(row: &[u64], out: &mut [u8], count: &mut usize) -> u8
    ensures number { result ≡ write_number_to row.now out.old }
    ensures count { count.new ≡ write_count_to row.now out.old count.old }
    ensures out { out.new ≡ bytes_to row.now out.old }
{
    let answer = write_hints(row, out);
    settle(answer, count)
}
