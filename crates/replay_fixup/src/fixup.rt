// Answers of apply_reloc_alloc.
ghost use Rattle.std.specs.Prelude.{◌+◌, ◌≤◌, ◌<◌, length};

use arm64_fixup::walk::apply_reloc_alloc;
use replay_list::head::Head;
use replay_list::lent::{are_filled, put_pattern};
use replay_list::replay::is_answer;
use util::read64;

// Whether the fix-up answers by a number and how many reports it filled. `bases` has the base, the start of thread-local storage and the image base.
fn answers(
    section: &mut [u8],
    bases: &[u8],
    entries: &[u8],
    targets: &[u8],
    slots: &mut [u8],
    number: u8,
    filled: usize,
) -> bool
    requires { 24 ≤ length bases.now }
{
    is_answer(
        apply_reloc_alloc(
            section,
            read64(bases, 0),
            read64(bases, 8),
            read64(bases, 16),
            entries,
            targets,
            slots,
        ),
        number,
        filled,
    )
}

// Whether the fix-up of what a record gives, up to its targets' end, answers so. `targets` is where they start.
fn fixes(
    section: &mut [u8],
    slots: &mut [u8],
    given: &[u8],
    targets: usize,
    number: u8,
    filled: usize,
) -> bool
    requires { (24 + length section.old ≤ targets) × (targets ≤ length given.now) }
{
    let entries = 24 + section.len();
    section.copy_from_slice(&given[24..entries]);
    put_pattern(slots);
    answers(
        section,
        given,
        &given[entries..targets],
        &given[targets..],
        slots,
        number,
        filled,
    )
}

// Whether the section and the slots became what the rest of a record says.
fn became(section: &[u8], slots: &[u8], due: &[u8]) -> bool
    requires { length section.now ≤ length due.now }
{
    let len = section.len();
    section == &due[0..len] && are_filled(slots, &due[len..])
}

// Whether the fix-up answers as a record says, with room for its section and its slots, and the lengths of its lists.
fn holds_in(
    section: &mut [u8],
    slots: &mut [u8],
    body: &[u8],
    entries: u16,
    targets: u16,
    number: u8,
    filled: usize,
) -> bool
    requires { (length section.old < 0x10000) × (filled < 0x10000) }
{
    let start = 24 + section.len() + entries as usize;
    let after = start + targets as usize;
    if body.len() != after + section.len() + 24 * filled {
        return false;
    }
    fixes(section, slots, &body[0..after], start, number, filled)
        && became(section, slots, &body[after..])
}

// Whether the fix-up answers as a record says.
pub(crate) fn holds(head: Head, body: &[u8]) -> bool {
    let mut section = [0u8; 65536];
    let mut slots = [0u8; 65536];
    let len = head.v1 as usize;
    let lent = head.v4 as usize;
    holds_in(
        &mut section[0..len],
        &mut slots[0..lent],
        body,
        head.v2,
        head.v3,
        head.number,
        head.v5 as usize,
    )
}
