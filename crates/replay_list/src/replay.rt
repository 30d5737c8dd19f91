// Replaying a list.
ghost use Rattle.std.specs.Prelude.{true, ◌≡◌, ◌<◌, IfOk, OnErr, OnOk};
ghost use Rattle.std.specs.Io.KnownBytes.{Appends};
ghost use Rattle.macho.specs.Refusal.{answer_number};
ghost use Rattle.replay_list.specs.Replay.{Turn, IsTurn, Replayed, turn_text};
ghost use Rattle.replay_list.specs.Seen.{Bounded, after};

use crate::head::Head;
use crate::list::{BODY, next};
use crate::seen::Seen;
use macho::refusal::Refusal;
use std::io;
use std::io::{Read, Write};

// Whether an answer has a number, 0 for none, and then a value.
pub fn is_answer<T: Copy + PartialEq>(answer: Result<T, Refusal>, number: u8, value: T) -> bool
    ensures number { result ≡ true → answer_number answer ≡ number }
    ensures value { IfOk answer (λ said. result ≡ true → T.eq said value ≡ true) }
    ensures refused { OnErr answer (answer_number answer ≡ number → result ≡ true) }
    ensures answered { IfOk answer (λ said. number ≡ 0 → T.eq said value ≡ true → result ≡ true) }
{
    match answer {
        Err(refusal) => refusal.number() == number,
        Ok(said) => number == 0 && said == value,
    }
}

// Replays the next record.
fn replay_next<R: Read, W: Write, F: Fn(Head, &[u8]) -> bool>(
    from: &mut R,
    to: &mut W,
    seen: Seen,
    holds: &F,
) -> io::Result<Seen>
    requires bounded { Bounded seen × (0 < seen.left) }
    requires callable { F.IsAlwaysCallable holds.now }
    ensures fewer { IfOk result (λ s. Bounded s × (s.left < seen.left)) }
    ensures turn { IfOk result (λ s. (t : Turn) × (s ≡ after seen t.head.what t.holds)
        × IsTurn (F.post holds.now) (R.remaining from.old) (R.remaining from.new) t
        × Appends (W.contents to.old) (W.contents to.new) (turn_text seen t)) }
{
    let mut body = [0u8; BODY];
    let head = next(from, to, &mut body)?;
    let len = head.len as usize;
    seen.after(to, head.what, holds(head, &body[..len]))
}

// Replays a list, of whose records `holds` says whether each is an answer that the port gives, too.
pub fn replay<R: Read, W: Write, F: Fn(Head, &[u8]) -> bool>(
    from: &mut R,
    to: &mut W,
    holds: F,
) -> io::Result<()>
    requires { F.IsAlwaysCallable holds }
    ensures { OnOk result (Replayed (F.post holds) (R.remaining from.old) (R.remaining from.new) (W.contents to.old) (W.contents to.new)) }
{
    let mut seen = Seen::none();
    while seen.left > 0 {
        seen = replay_next(from, to, seen, &holds)?;
    }
    seen.print(to)
}
