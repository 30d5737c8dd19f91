// What the entries of a hint's places say.
ghost use Rattle.std.specs.Prelude.{◌≡◌, ◌+◌, ◌*◌, ◌≤◌, length};
ghost use Rattle.macho.specs.Hint.{no_entry};
ghost use Rattle.macho.specs.Reloc.{reloc_size};
ghost use Rattle.arm64_hint_terms.specs.Rels.{rel_at, is_half, is_page_rel, is_pageoff_rel, same_reference, has_page_pair, both_pages};

use macho::consts;
use macho::hint::HintInsn;
use macho::reloc::Reloc;

// The entries of a hint's places.
#[derive(Clone, Copy)]
pub struct Rels {
    pub r0: Option<Reloc>,
    pub r1: Option<Reloc>,
    pub r2: Option<Reloc>,
}

// The entry that a number names; NO_ENTRY names none.
#[tactic(auto, unfolding(crate::specs::Rels::rel_at, util::specs::Choice::choose))]
pub fn rel_at(entries: &[u8], number: u32) -> Option<Reloc>
    requires { (number ≡ no_entry → ⊥) → reloc_size * number + reloc_size ≤ length entries.now }
    ensures { result ≡ rel_at entries.now number }
{
    if number == HintInsn::NO_ENTRY {
        return None;
    }
    Some(Reloc::read(entries, Reloc::SIZE * (number as usize)))
}

// Whether an entry is a half of a reference, by the types of that half: plain, by a GOT slot, and by a thread-local slot. With `got`, a plain one is not.
#[tactic(auto, unfolding(util::specs::Choice::choose))]
fn is_half(rel: Option<Reloc>, got: bool, plain: u8, got_slot: u8, tlv_slot: u8) -> bool
    ensures { result ≡ is_half rel got plain got_slot tlv_slot }
{
    match rel {
        None => false,
        Some(r) if r.ty == plain => !got,
        Some(r) => r.ty == got_slot || r.ty == tlv_slot,
    }
}

// Whether an entry is the page half of a reference; with `got`, of a reference to a GOT slot or one relaxed from it.
#[tactic(auto, unfolding(crate::specs::Rels::is_page_rel))]
pub fn is_page_rel(rel: Option<Reloc>, got: bool) -> bool
    ensures { result ≡ is_page_rel rel got }
{
    is_half(
        rel,
        got,
        consts::ARM64_RELOC_PAGE21,
        consts::ARM64_RELOC_GOT_LOAD_PAGE21,
        consts::ARM64_RELOC_TLVP_LOAD_PAGE21,
    )
}

// The same for the page-offset half.
#[tactic(auto, unfolding(crate::specs::Rels::is_pageoff_rel))]
pub fn is_pageoff_rel(rel: Option<Reloc>, got: bool) -> bool
    ensures { result ≡ is_pageoff_rel rel got }
{
    is_half(
        rel,
        got,
        consts::ARM64_RELOC_PAGEOFF12,
        consts::ARM64_RELOC_GOT_LOAD_PAGEOFF12,
        consts::ARM64_RELOC_TLVP_LOAD_PAGEOFF12,
    )
}

// Whether two places have equal targets and addends, or neither has an entry.
#[tactic(auto, unfolding(crate::specs::Rels::same_reference))]
fn same_reference(a: Option<Reloc>, b: Option<Reloc>) -> bool
    ensures { result ≡ same_reference a b }
{
    match (a, b) {
        (Some(x), Some(y)) => x.target == y.target && x.addend == y.addend,
        (None, None) => true,
        _ => false,
    }
}

// Whether the first two of n words carry the halves of one reference, and a third carries no entry.
#[tactic(auto, unfolding(crate::specs::Rels::has_page_pair, crate::specs::Rels::is_absent))]
pub fn has_page_pair(r: Rels, n: u8, got: bool) -> bool
    ensures { result ≡ has_page_pair r n got }
{
    is_page_rel(r.r0, got)
        && is_pageoff_rel(r.r1, got)
        && same_reference(r.r0, r.r1)
        && (n < 3 || r.r2.is_none())
}

// Whether the first two words carry page halves, of whatever references.
#[tactic(auto, unfolding(crate::specs::Rels::both_pages))]
pub fn both_pages(r: Rels) -> bool
    ensures { result ≡ both_pages r }
{
    is_page_rel(r.r0, false) && is_page_rel(r.r1, false)
}
