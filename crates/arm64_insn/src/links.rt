// Number 31 between words: the zero register as a destination of ADR, ADRP or a load, the stack pointer as a base and in ADD.
ghost use Rattle.std.specs.Prelude.{◌≡◌};
ghost use Rattle.arm64_insn.specs.Links.{makes, takes, links31, adds31, meets31};

use crate::add::is_add;
use crate::adrp::Adrp;
use crate::ldst::LoadStore;

// Load register (literal): 011 and 00, bits 29..27 and 25..24.
const LITERAL_MASK: u32 = 0x3b00_0000;

// 011, 00.
const LITERAL_FIXED: u32 = 0x1800_0000;

// Whether number 31 is the general register that a word makes. A literal load does where V, bit 26, is 0 and it is no prefetch, opc 11.
fn makes_31(insn: u32) -> bool
    ensures { result ≡ makes insn 31 }
{
    if insn % 0x20 != 31 {
        return false;
    }
    if insn & Adrp::MASK == Adrp::ADR_FIXED {
        return true;
    }
    if insn & Adrp::MASK == Adrp::FIXED {
        return true;
    }
    if is_add(insn) {
        return true;
    }
    if insn & LITERAL_MASK == LITERAL_FIXED {
        return insn / 0x400_0000 % 2 == 0 && insn / 0x4000_0000 != 3;
    }
    let Some(ls) = LoadStore::decode(insn) else {
        return false;
    };
    !ls.is_float && !ls.is_store
}

// Whether number 31 is the base of a load or store, or the source of an ADD.
fn takes_31(insn: u32) -> bool
    ensures { result ≡ takes insn 31 }
{
    if insn / 0x20 % 0x20 != 31 {
        return false;
    }
    is_add(insn) || LoadStore::decode(insn).is_some()
}

// Whether number 31 links a word to the next.
pub fn links_31(insn: u32, next: u32) -> bool
    ensures { result ≡ links31 insn next }
{
    makes_31(insn) && takes_31(next)
}

// Whether a word is an ADD to number 31.
pub fn adds_31(insn: u32) -> bool
    ensures { result ≡ adds31 insn }
{
    insn % 0x20 == 31 && is_add(insn)
}

// Whether number 31 links one of some words to the next, or one of them is an ADD to it. Most words have not 31 in their lowest five bits, and do not
// make it: that is asked first, for its time.
pub fn meet_31(words: &[u32]) -> bool
    ensures { result ≡ meets31 words.now }
{
    for i in 0..words.len() {
        if words[i] % 0x20 != 31 {
            continue;
        }
        if adds_31(words[i]) || (i + 1 < words.len() && links_31(words[i], words[i + 1])) {
            return true;
        }
    }
    false
}
