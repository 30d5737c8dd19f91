// ADD (immediate), not shifted.
ghost use Rattle.std.specs.Prelude.{◌≡◌};
ghost use Rattle.util.specs.Diagram.{matches};
ghost use Rattle.arm64_insn.specs.Encoding.{add, add_unshifted};
ghost use Rattle.arm64_insn.specs.Add.{add_of};

// "add Xd, Xn, #imm".
#[derive(Clone, Copy)]
pub struct Add {
    pub rd: u32,
    pub rn: u32,
    pub imm: u64,
}

impl Add {
    // sf, op, S, 100010 and sh: bits 31..22.
    pub const MASK: u32 = 0xffc0_0000;

    // sf 1, op 0, S 0, 100010, sh 0.
    pub const FIXED: u32 = 0x9100_0000;

    // Of either width: op, S, 100010 and sh, bits 30..22.
    pub const EITHER_MASK: u32 = 0x7fc0_0000;

    // Of either width: op 0, S 0, 100010, sh 0.
    pub const EITHER_FIXED: u32 = 0x1100_0000;

    // The Rust's parse_add.
    pub fn decode(insn: u32) -> Option<Add>
        ensures { result ≡ add_of insn }
    {
        if is_add(insn) {
            Some(Add {
                rd: insn % 0x20,
                rn: insn / 0x20 % 0x20,
                imm: (insn / 0x400 % 0x1000) as u64,
            })
        } else {
            None
        }
    }
}

// Whether a word is "add Xd, Xn, #imm".
pub fn is_add(insn: u32) -> bool
    ensures { result ≡ matches add insn }
{
    insn & Add::MASK == Add::FIXED
}

// Whether a word is "add Wd|Xd, Wn|Xn, #imm".
pub fn is_add_either(insn: u32) -> bool
    ensures { result ≡ matches add_unshifted insn }
{
    insn & Add::EITHER_MASK == Add::EITHER_FIXED
}
