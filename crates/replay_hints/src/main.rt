// Replays data/answers: what the unchanged Rust answers on lists of hints, with the rows of docs/DIFFERENCES applied, chosen so that each row of the
// differential run's table is covered. tools/make-answers makes the list, tests/driver/answers.rs says what it holds.
#![tactic(auto)]

mod hints;

use replay_list::head::Head;
use replay_list::list::open;
use replay_list::replay::replay;
use std::io;

// A record of apply_hints.
const HINTS: u8 = 5;

// Whether a record is an answer that the port gives, too.
fn holds(head: Head, body: &[u8]) -> bool {
    head.what == HINTS && hints::holds(head, body)
}

fn main(rt: HostRuntime) -> io::Result<()> {
    replay(&mut open(&rt)?, &mut rt.stdout(), holds)
}
