// Which number an entry is turned down with (RULES 5.6).
ghost use Rattle.std.specs.Prelude.{◌≡◌};
ghost use Rattle.arm64_fixup_entry.specs.Check.{overflows, unsupported, subtracts, uses_got, needs_symbol, lacks_next, lacks_symbol, too_far, late_of, check_of};

use crate::target::{Bases, from_image, is_imported_symbol, width_of};
use macho::consts::{
    ARM64_RELOC_ADDEND, ARM64_RELOC_AUTHENTICATED_POINTER, ARM64_RELOC_GOT_LOAD_PAGE21,
    ARM64_RELOC_GOT_LOAD_PAGEOFF12, ARM64_RELOC_POINTER_TO_GOT, ARM64_RELOC_SUBTRACTOR,
    ARM64_RELOC_TLVP_LOAD_PAGE21, ARM64_RELOC_TLVP_LOAD_PAGEOFF12,
};
use macho::refusal::Refusal;
use macho::reloc::Reloc;
use macho::resolved::Resolved;

// Whether base plus offset passes 2^64 - 1.
fn overflows(bases: Bases, e: Reloc) -> bool
    ensures { result ≡ overflows bases e }
{
    u64::MAX - (e.offset as u64) < bases.base
}

// Whether the fix-up does not know a type.
fn unsupported(ty: u8) -> bool
    ensures { result ≡ unsupported ty }
{
    ARM64_RELOC_ADDEND <= ty && ty != ARM64_RELOC_AUTHENTICATED_POINTER
}

// Whether a type takes the entry after it too.
pub fn subtracts(ty: u8) -> bool
    ensures { result ≡ subtracts ty }
{
    ty == ARM64_RELOC_SUBTRACTOR
}

// Whether a type works on a symbol's GOT slot, page21 of a GOT load aside.
fn uses_got(ty: u8) -> bool
    ensures { result ≡ uses_got ty }
{
    matches!(
        ty,
        ARM64_RELOC_GOT_LOAD_PAGEOFF12
            | ARM64_RELOC_POINTER_TO_GOT
            | ARM64_RELOC_TLVP_LOAD_PAGE21
            | ARM64_RELOC_TLVP_LOAD_PAGEOFF12
    )
}

// Whether the target has to be a symbol: a GOT page with a helper does without.
#[tactic(auto, unfolding(util::specs::Choice::choose))]
fn needs_symbol(ty: u8, t: Resolved) -> bool
    ensures { result ≡ needs_symbol ty t }
{
    match ty {
        ARM64_RELOC_GOT_LOAD_PAGE21 => !t.has_helper(),
        ARM64_RELOC_AUTHENTICATED_POINTER => true,
        _ => uses_got(ty),
    }
}

// Whether a SUBTRACTOR has no entry after it.
fn lacks_next(ty: u8, last: bool) -> bool
    ensures { result ≡ lacks_next ty last }
{
    last && subtracts(ty)
}

// Whether the target is a section where a symbol is needed.
fn lacks_symbol(e: Reloc, t: Resolved) -> bool
    ensures { result ≡ lacks_symbol e t }
{
    e.is_section() && needs_symbol(e.ty, t)
}

// Whether an authenticated pointer that is written does not lie in the 2^32 bytes from the image base on.
fn too_far(bases: Bases, e: Reloc, t: Resolved) -> bool
    ensures { result ≡ too_far bases e t }
{
    e.ty == ARM64_RELOC_AUTHENTICATED_POINTER
        && !is_imported_symbol(e, t)
        && 0x1_0000_0000 <= from_image(bases, e, t)
}

// The first number of an entry of a type from 10 up, with `room` bytes at its offset. Apart, so that every other type is asked nothing more.
#[tactic(auto, unfolding(crate::specs::Check::late_of, util::specs::Choice::choose))]
fn check_late(room: usize, bases: Bases, e: Reloc, t: Resolved) -> Result<(), Refusal>
    ensures { result ≡ late_of room bases e t }
{
    if unsupported(e.ty) {
        return Err(Refusal::Unsupported);
    }
    if lacks_symbol(e, t) {
        return Err(Refusal::NeedsSymbol);
    }
    if too_far(bases, e, t) {
        return Err(Refusal::FarFromImage);
    }
    if room < width_of(e, t) {
        return Err(Refusal::Bounds);
    }
    Ok(())
}

// The first number that an entry of a section of `len` bytes is turned down with.
#[tactic(auto, unfolding(crate::specs::Check::check_of, crate::specs::Check::late_of, util::specs::Choice::choose))]
pub fn check_entry(
    len: usize,
    bases: Bases,
    e: Reloc,
    t: Resolved,
    last: bool,
) -> Result<(), Refusal>
    ensures { result ≡ check_of len bases e t last }
{
    let offset = e.offset as usize;
    if len < offset {
        return Err(Refusal::Bounds);
    }
    if !t.is_well_formed() {
        return Err(Refusal::Flags);
    }
    if overflows(bases, e) {
        return Err(Refusal::Overflow);
    }
    if ARM64_RELOC_ADDEND <= e.ty {
        return check_late(len - offset, bases, e, t);
    }
    if lacks_next(e.ty, last) {
        return Err(Refusal::LoneSubtractor);
    }
    if lacks_symbol(e, t) {
        return Err(Refusal::NeedsSymbol);
    }
    if len - offset < width_of(e, t) {
        return Err(Refusal::Bounds);
    }
    Ok(())
}
