// Which relocation records the linker applies.
ghost use Rattle.std.specs.Prelude.{◌≡◌};
ghost use Rattle.x86_64_reader.specs.Support.{supported_of};

use arch::form::{
    PCREL_SECTION_4, PCREL_SYMBOL_1, PCREL_SYMBOL_4, SECTION_4, SECTION_8, SYMBOL_4, SYMBOL_8,
    has_reloc_form,
};
use macho::mach_rel::MachRel;

// For each type the forms that it takes.
const FORMS: [u16; 16] = [
    SYMBOL_4 + SYMBOL_8 + SECTION_4 + SECTION_8, // UNSIGNED
    PCREL_SYMBOL_4 + PCREL_SECTION_4, // SIGNED
    PCREL_SYMBOL_4 + PCREL_SECTION_4 + PCREL_SYMBOL_1, // BRANCH
    PCREL_SYMBOL_4, // GOT_LOAD
    PCREL_SYMBOL_4, // GOT
    SYMBOL_4 + SYMBOL_8, // SUBTRACTOR
    PCREL_SYMBOL_4 + PCREL_SECTION_4, // SIGNED_1
    PCREL_SYMBOL_4 + PCREL_SECTION_4, // SIGNED_2
    PCREL_SYMBOL_4 + PCREL_SECTION_4, // SIGNED_4
    PCREL_SYMBOL_4, // TLV
    0, // no type from here on
    0,
    0,
    0,
    0,
    0,
];

// Whether a record has a form that its type takes.
pub fn is_supported(r: MachRel) -> bool
    ensures { result ≡ supported_of r }
{
    has_reloc_form(r, FORMS[r.ty() as usize])
}
