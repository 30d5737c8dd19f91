// Replays data/answers: what the unchanged Rust answers on fix-ups, stub entries and thunk entries, with the rows of docs/DIFFERENCES applied,
// chosen so that each row of the differential run's table is covered. tools/make-answers makes the list, tests/driver/answers.rs says what it holds.
#![tactic(auto)]

mod fixup;
mod stub;

use replay_list::head::Head;
use replay_list::list::open;
use replay_list::replay::replay;
use std::io;

// Records of apply_reloc_alloc, write_stub and write_thunk.
const FIX: u8 = 2;

const STUB: u8 = 3;

const THUNK: u8 = 4;

// Whether a record is an answer that the port gives, too.
fn holds(head: Head, body: &[u8]) -> bool {
    match head.what {
        FIX => fixup::holds(head, body),
        STUB => stub::holds(head, body, true),
        THUNK => stub::holds(head, body, false),
        _ => false,
    }
}

fn main(rt: HostRuntime) -> io::Result<()> {
    replay(&mut open(&rt)?, &mut rt.stdout(), holds)
}
