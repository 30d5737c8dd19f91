// B, BL and BR.
ghost use Rattle.std.specs.Prelude.{◌≡◌};
ghost use Rattle.arm64_insn.specs.Branch.{branch_reaches, branch_word, helper_word};

// The unconditional branches: B and BL to an immediate, BR to a register.
#[derive(Clone, Copy)]
pub struct Branch;

impl Branch {
    // op 0, 00101: bits 31..26 of B.
    pub const B: u32 = 0x1400_0000;

    // op 1, 00101: bits 31..26 of BL.
    pub const BL: u32 = 0x9400_0000;

    // imm26 of B and BL: bits 25..0.
    pub const IMM: u32 = 0x03ff_ffff;

    // All of BR but Rn: 1101011, Z 0, 0, op 00, 11111, 0000, A 0, M 0 and Rm 00000.
    pub const BR: u32 = 0xd61f_0000;
}

// Whether a B or BL at p reaches t.
pub fn branch_reaches(t: u64, p: u64) -> bool
    ensures { result ≡ branch_reaches t p }
{
    util::in_range(util::wrapping_sub(t, p), 0x800_0000, 0x800_0000)
}

// A word with the displacement in its imm26, the field of a B or BL.
pub fn branch_word(insn: u32, displacement: u64) -> u32
    ensures { result ≡ branch_word insn displacement }
{
    (insn & !Branch::IMM) + (displacement / 4 % 0x400_0000) as u32
}

// "b" to a helper of the site's own, and "bl" to one that is shared.
pub fn helper_word(own: bool, displacement: u64) -> u32
    ensures { result ≡ helper_word own displacement }
{
    let imm = (displacement / 4 % 0x400_0000) as u32;
    if own {
        return Branch::B + imm;
    }
    Branch::BL + imm
}
