// The records that read whatever stands at their place.
ghost use Rattle.std.specs.Prelude.{◌≡◌};
ghost use Rattle.arm64_reader.specs.Plain.{plain_of};

use macho::consts::{
    ARM64_RELOC_BRANCH26, ARM64_RELOC_GOT_LOAD_PAGE21, ARM64_RELOC_PAGE21, ARM64_RELOC_PAGEOFF12,
    ARM64_RELOC_POINTER_TO_GOT, ARM64_RELOC_SUBTRACTOR, ARM64_RELOC_TLVP_LOAD_PAGE21,
};
use macho::mach_rel::MachRel;

// Forms of a symbol's record as numbers: pcrel, plus 2 times p2size, plus 8 for extern.
const WORD: u8 = 2 * 2 + 8;

const QUAD: u8 = 2 * 3 + 8;

const PCREL_WORD: u8 = 1 + 2 * 2 + 8;

// A type, bits 28 to 31 of a record, with a form, bits 24 to 27.
const SUBTRACTOR_4: u8 = 16 * ARM64_RELOC_SUBTRACTOR + WORD;

const SUBTRACTOR_8: u8 = 16 * ARM64_RELOC_SUBTRACTOR + QUAD;

const BRANCH26: u8 = 16 * ARM64_RELOC_BRANCH26 + PCREL_WORD;

const PAGE21: u8 = 16 * ARM64_RELOC_PAGE21 + PCREL_WORD;

const PAGEOFF12: u8 = 16 * ARM64_RELOC_PAGEOFF12 + WORD;

const GOT_LOAD_PAGE21: u8 = 16 * ARM64_RELOC_GOT_LOAD_PAGE21 + PCREL_WORD;

const POINTER_TO_GOT: u8 = 16 * ARM64_RELOC_POINTER_TO_GOT + PCREL_WORD;

const TLVP_LOAD_PAGE21: u8 = 16 * ARM64_RELOC_TLVP_LOAD_PAGE21 + PCREL_WORD;

// Whether a record is one of them: of a symbol, with no addend in its place and no word to be checked.
pub fn is_plain(r: MachRel) -> bool
    ensures { result ≡ plain_of r }
{
    matches!(
        (r.bits / 0x100_0000) as u8,
        SUBTRACTOR_4
            | SUBTRACTOR_8
            | BRANCH26
            | PAGE21
            | PAGEOFF12
            | GOT_LOAD_PAGE21
            | POINTER_TO_GOT
            | TLVP_LOAD_PAGE21
    )
}
