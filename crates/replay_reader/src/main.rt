// Replays data/answers: what the unchanged Rust answers on relocation records of arm64 and x86_64, with the rows of docs/DIFFERENCES applied, chosen so
// that each row of the differential run's table is covered. tools/make-answers makes the list, tests/driver/answers.rs says what it holds.
#![tactic(auto)]

mod reader;

use replay_list::head::Head;
use replay_list::list::open;
use replay_list::replay::replay;
use std::io;

// Records of read_relocs and read_relocs_x86_64.
const READ: u8 = 1;

const READ_X86_64: u8 = 9;

// Whether a record is an answer that the port gives, too.
fn holds(head: Head, body: &[u8]) -> bool {
    let what = head.what;
    match what {
        READ => reader::holds(head, body, 0),
        READ_X86_64 => reader::holds(head, body, 8),
        _ => false,
    }
}

fn main(rt: HostRuntime) -> io::Result<()> {
    replay(&mut open(&rt)?, &mut rt.stdout(), holds)
}
