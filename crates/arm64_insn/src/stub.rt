// The three words of a stub and of a thunk.
ghost use Rattle.std.specs.Prelude.{◌≡◌};
ghost use Rattle.arm64_insn.specs.Stub.{stub_words, thunk_words};

use crate::add::Add;
use crate::adrp::Adrp;
use crate::branch::Branch;
use crate::ldst::LoadStore;
use crate::page::page_offset;

// Three words, the first at the lowest address.
#[derive(Clone, Copy)]
pub struct Words3 {
    pub first: u32,
    pub second: u32,
    pub third: u32,
}

// "adrp x16, 0".
const ADRP_X16: u32 = Adrp::FIXED + 16;

// "ldr x16, [x16]": Rn and Rt are 16.
const LDR_X16: u32 = LoadStore::LDR_X + 16 * 0x20 + 16;

// "add x16, x16, #0": Rn and Rd are 16.
const ADD_X16: u32 = Add::FIXED + 16 * 0x20 + 16;

// "br x16": Rn is 16.
const BR_X16: u32 = Branch::BR + 16 * 0x20;

// "adrp x16, pointer@PAGE; ldr x16, [x16, pointer@PAGEOFF]; br x16" at addr.
pub fn stub_words(addr: u64, pointer: u64) -> Words3
    ensures { result ≡ stub_words addr pointer }
{
    Words3 {
        first: ADRP_X16 + page_offset(pointer, addr),
        second: LDR_X16 + ((pointer / 8 % 0x200) as u32) * 0x400,
        third: BR_X16,
    }
}

// "adrp x16, target@PAGE; add x16, x16, target@PAGEOFF; br x16" at addr.
pub fn thunk_words(addr: u64, target: u64) -> Words3
    ensures { result ≡ thunk_words addr target }
{
    Words3 {
        first: ADRP_X16 + page_offset(target, addr),
        second: ADD_X16 + ((target % 0x1000) as u32) * 0x400,
        third: BR_X16,
    }
}
