// Forms of a relocation record as sets of bits (macho/arch/mod.rs).
ghost use Rattle.std.specs.Prelude.{◌≡◌, ◌<◌};
ghost use Rattle.util.specs.Choice.{flag};
ghost use Rattle.util.specs.Bits.{has_bit};
ghost use Rattle.macho.specs.MachRel.{form_of};
ghost use Rattle.arch.specs.Form.{form, bit_of};

use macho::mach_rel::MachRel;
use util::bit;

// Forms as bits of a set, as `reloc_form` gives them: bit pcrel, plus 2 times p2size, plus 8 for extern. By whether they are pc-relative, what they name and
// how many bytes they are about.
pub const SECTION_4: u16 = 1 << (2 * 2);

pub const SECTION_8: u16 = 1 << (2 * 3);

pub const SYMBOL_4: u16 = 1 << (2 * 2 + 8);

pub const SYMBOL_8: u16 = 1 << (2 * 3 + 8);

pub const PCREL_SECTION_4: u16 = 1 << (1 + 2 * 2);

pub const PCREL_SYMBOL_4: u16 = 1 << (1 + 2 * 2 + 8);

pub const PCREL_SYMBOL_1: u16 = 1 << (1 + 8);

// One form of a record, its pcrel, p2size and extern fields, as a bit in a set of forms.
pub fn reloc_form(pcrel: bool, p2size: u32, ext: bool) -> u16
    requires { p2size < 4 }
    ensures { result ≡ bit_of (form (flag pcrel) p2size (flag ext)) }
{
    1 << (bit(pcrel) + 2 * p2size + 8 * bit(ext))
}

// Whether a record's form is one of `forms`, a set of reloc_form bits. The form's fields are bits 24 to 27 of the record.
pub fn has_reloc_form(r: MachRel, forms: u16) -> bool
    ensures { result ≡ has_bit forms (form_of r.bits) }
{
    // the constants are forms by `reloc_form`, too
    prove!(SECTION_4 == reloc_form(false, 2, false));
    prove!(SECTION_8 == reloc_form(false, 3, false));
    prove!(SYMBOL_4 == reloc_form(false, 2, true));
    prove!(SYMBOL_8 == reloc_form(false, 3, true));
    prove!(PCREL_SECTION_4 == reloc_form(true, 2, false));
    prove!(PCREL_SYMBOL_4 == reloc_form(true, 2, true));
    prove!(PCREL_SYMBOL_1 == reloc_form(true, 0, true));
    (forms >> r.form()) % 2 == 1
}
