// What an entry and its resolved target say together.
ghost use Rattle.std.specs.Prelude.{◌≡◌};
ghost use Rattle.arm64_fixup_entry.specs.Target.{target_of, slot_of, got_target, from_image, imported_symbol, width_of};

use macho::consts::{
    ARM64_RELOC_AUTHENTICATED_POINTER, ARM64_RELOC_PAGE21, ARM64_RELOC_PAGEOFF12,
    ARM64_RELOC_SUBTRACTOR, ARM64_RELOC_UNSIGNED,
};
use macho::reloc::Reloc;
use macho::resolved::Resolved;

// The address of the section's first byte, the start of thread-local storage, and the address that an authenticated pointer counts from.
#[derive(Clone, Copy)]
pub struct Bases {
    pub base: u64,
    pub tls_begin: u64,
    pub image_base: u64,
}

// S + A.
#[tactic(auto, unfolding(crate::specs::Target::target_of))]
pub fn target_of(e: Reloc, t: Resolved) -> u64
    ensures { result ≡ target_of e t }
{
    util::wrapping_add(t.addr, e.addend)
}

// G + A.
#[tactic(auto, unfolding(crate::specs::Target::slot_of))]
pub fn slot_of(e: Reloc, t: Resolved) -> u64
    ensures { result ≡ slot_of e t }
{
    util::wrapping_add(t.got, e.addend)
}

// What a GOT or thread-local load refers to: S + A where it is relaxed, else G + A.
#[tactic(auto, unfolding(crate::specs::Target::got_target, util::specs::Choice::choose))]
pub fn got_target(e: Reloc, t: Resolved) -> u64
    ensures { result ≡ got_target e t }
{
    if t.can_relax_got() {
        return target_of(e, t);
    }
    slot_of(e, t)
}

// S + A less the image base.
#[tactic(auto, unfolding(crate::specs::Target::from_image))]
pub fn from_image(bases: Bases, e: Reloc, t: Resolved) -> u64
    ensures { result ≡ from_image bases e t }
{
    util::wrapping_sub(target_of(e, t), bases.image_base)
}

// Whether the target is an imported symbol, whose pointers dyld fills.
pub fn is_imported_symbol(e: Reloc, t: Resolved) -> bool
    ensures { result ≡ imported_symbol e t }
{
    !e.is_section() && t.is_imported()
}

// How many bytes at its offset an entry reads or writes.
#[tactic(auto, unfolding(crate::specs::Target::width_of, util::specs::Choice::choose))]
pub fn width_of(e: Reloc, t: Resolved) -> usize
    ensures { result ≡ width_of e t }
{
    match e.ty {
        ARM64_RELOC_UNSIGNED | ARM64_RELOC_AUTHENTICATED_POINTER => {
            if is_imported_symbol(e, t) { 0 } else { 8 }
        }
        ARM64_RELOC_SUBTRACTOR => { if e.size == 4 { 4 } else { 8 } }
        ARM64_RELOC_PAGE21 | ARM64_RELOC_PAGEOFF12 => { if t.has_address() { 4 } else { 0 } }
        _ => 4,
    }
}
