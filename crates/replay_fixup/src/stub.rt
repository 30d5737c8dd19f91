// Answers of write_stub and write_thunk.
use arm64_fixup::stub::{write_stub, write_thunk};
use replay_list::head::Head;
use replay_list::lent::put_pattern;
use replay_list::replay::is_answer;
use util::read64;

// Whether a stub entry, or a thunk entry, is answered so.
fn answers(
    buf: &mut [u8],
    addr: u64,
    target: u64,
    is_stub: bool,
    number: u8,
    reaches: u16,
) -> bool {
    if is_stub {
        return is_answer(
            write_stub(buf, addr, target).map(u16::from),
            number,
            reaches,
        );
    }
    is_answer(write_thunk(buf, addr, target), number, ())
}

// Whether an entry is answered so and becomes what a record says, with room for its bytes.
fn holds_in(buf: &mut [u8], body: &[u8], is_stub: bool, number: u8, reaches: u16) -> bool {
    if body.len() != 16 + buf.len() {
        return false;
    }
    put_pattern(buf);
    answers(
        buf,
        read64(body, 0),
        read64(body, 8),
        is_stub,
        number,
        reaches,
    ) && &*buf == &body[16..]
}

// Whether a stub entry, or a thunk entry, is answered as a record says.
pub(crate) fn holds(head: Head, body: &[u8], is_stub: bool) -> bool {
    let mut buf = [0u8; 65536];
    let len = head.v1 as usize;
    holds_in(&mut buf[0..len], body, is_stub, head.number, head.v2)
}
