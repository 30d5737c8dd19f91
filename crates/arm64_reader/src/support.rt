// Which relocation records the linker applies.
ghost use Rattle.std.specs.Prelude.{◌≡◌};
ghost use Rattle.arm64_reader.specs.Support.{supported_of};

use arch::form::{PCREL_SYMBOL_4, SECTION_4, SECTION_8, SYMBOL_4, SYMBOL_8, has_reloc_form};
use macho::mach_rel::MachRel;

// For each type the forms that it takes.
const FORMS: [u16; 16] = [
    SYMBOL_4 + SYMBOL_8 + SECTION_4 + SECTION_8, // UNSIGNED
    SYMBOL_4 + SYMBOL_8, // SUBTRACTOR
    PCREL_SYMBOL_4, // BRANCH26
    PCREL_SYMBOL_4, // PAGE21
    SYMBOL_4, // PAGEOFF12
    PCREL_SYMBOL_4, // GOT_LOAD_PAGE21
    SYMBOL_4, // GOT_LOAD_PAGEOFF12
    PCREL_SYMBOL_4, // POINTER_TO_GOT
    PCREL_SYMBOL_4, // TLVP_LOAD_PAGE21
    SYMBOL_4, // TLVP_LOAD_PAGEOFF12
    SECTION_4, // ADDEND, whose index is no section's
    SYMBOL_8, // AUTHENTICATED_POINTER
    0, // no type from here on
    0,
    0,
    0,
];

// Whether a record has a form that its type takes.
pub fn is_supported(r: MachRel) -> bool
    ensures { result ≡ supported_of r }
{
    has_reloc_form(r, FORMS[r.ty() as usize])
}
