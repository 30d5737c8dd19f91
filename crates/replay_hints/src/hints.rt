// Answers of apply_hints.
ghost use Rattle.std.specs.Prelude.{◌+◌, ◌≤◌, ◌<◌, length};

use arm64_hint_run::run::run;
use arm64_hint_work::tally::Tally;
use replay_list::head::Head;
use replay_list::replay::is_answer;
use util::read32;

// The tally at the front of a body.
fn tally_of(body: &[u8]) -> Tally
    requires { 16 ≤ length body.now }
{
    Tally {
        rewritten: read32(body, 0),
        skipped: read32(body, 4),
        declined: read32(body, 8),
        turned_down: read32(body, 12),
    }
}

// Whether the run on what a record gives, up to its entries' end, answers so. `entries` is where they start.
fn answers(image: &mut [u8], given: &[u8], entries: usize, number: u8) -> bool
    requires { (16 + length image.old ≤ entries) × (entries ≤ length given.now) }
{
    let hints = 16 + image.len();
    image.copy_from_slice(&given[16..hints]);
    is_answer(
        run(image, &given[hints..entries], &given[entries..]),
        number,
        tally_of(given),
    )
}

// Whether the run answers as a record says, with room for its image, and the lengths of its lists.
fn holds_in(image: &mut [u8], body: &[u8], hints: u16, entries: u16, number: u8) -> bool
    requires { length image.old < 0x10000 }
{
    let start = 16 + image.len() + hints as usize;
    let after = start + entries as usize;
    if body.len() != after + image.len() {
        return false;
    }
    answers(image, &body[0..after], start, number) && &*image == &body[after..]
}

// Whether the run answers as a record says.
pub(crate) fn holds(head: Head, body: &[u8]) -> bool {
    let mut image = [0u8; 65536];
    let len = head.v1 as usize;
    holds_in(&mut image[0..len], body, head.v2, head.v3, head.number)
}
