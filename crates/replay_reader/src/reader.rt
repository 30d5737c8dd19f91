// Answers of read_relocs and read_relocs_x86_64.
ghost use Rattle.std.specs.Prelude.{◌≡◌, ◌+◌, ◌*◌, ◌≤◌, length};

use arm64_reader::read::read_relocs;
use macho::refusal::Refusal;
use replay_list::head::Head;
use replay_list::lent::{are_filled, put_pattern};
use replay_list::replay::is_answer;
use util::read64;
use x86_64_reader::read::read_relocs as read_relocs_of_x86_64;

// Puts the addresses of sections at the front of a list.
fn put_addresses(list: &mut [u64], bytes: &[u8]) {
    for (address, word) in list.iter_mut().zip(bytes.chunks_exact(8)) {
        *address = read64(word, 0);
    }
}

// What the reader of a machine answers: of arm64, where no bytes are given for the section's own address, or of x86_64.
fn answer_to(
    contents: &[u8],
    records: &[u8],
    sections: &[u64],
    address: &[u8],
    slots: &mut [u8],
) -> Result<usize, Refusal> {
    if address.len() < 8 {
        return read_relocs(contents, records, sections, slots);
    }
    read_relocs_of_x86_64(contents, records, sections, read64(address, 0), slots)
}

// What the reader answers to what a record gives, up to its entries. `records`, `sections` and `address` are where they start.
fn answer_in(
    given: &[u8],
    records: usize,
    sections: usize,
    address: usize,
    list: &mut [u64],
    slots: &mut [u8],
) -> Result<usize, Refusal>
    requires { (records ≤ sections) × (sections + 8 * length list.old ≡ address) × (address ≤ length given.now) }
{
    put_addresses(list, &given[sections..address]);
    put_pattern(slots);
    answer_to(
        &given[0..records],
        &given[records..sections],
        list,
        &given[address..],
        slots,
    )
}

// Whether the reader answers as a record says, with room for the addresses of its sections and its slots.
fn holds_in(list: &mut [u64], slots: &mut [u8], head: Head, body: &[u8], own: usize) -> bool
    requires { (length list.old ≤ 8) × (own ≤ 8) }
{
    let records = head.v1 as usize;
    let sections = records + head.v2 as usize;
    let address = sections + 8 * list.len();
    let entries = address + own;
    let filled = head.v5 as usize;
    if body.len() != entries + 24 * filled {
        return false;
    }
    let answer = answer_in(&body[0..entries], records, sections, address, list, slots);
    is_answer(answer, head.number, filled) && are_filled(slots, &body[entries..])
}

// Whether the reader answers as a record says that has so many bytes for the section's own address: 0 for arm64, 8 for x86_64.
pub(crate) fn holds(head: Head, body: &[u8], own: usize) -> bool
    requires { own ≤ 8 }
{
    let mut list = [0u64; 8];
    let mut slots = [0u8; 65536];
    let count = head.v3 as usize;
    let lent = head.v4 as usize;
    if count > 8 {
        return false;
    }
    holds_in(&mut list[0..count], &mut slots[0..lent], head, body, own)
}
