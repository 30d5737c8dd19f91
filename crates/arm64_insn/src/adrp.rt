// ADRP and ADR.
ghost use Rattle.std.specs.Prelude.{◌≡◌, ◌<◌};
ghost use Rattle.arm64_insn.specs.Page.{adrp_page};
ghost use Rattle.arm64_insn.specs.Adrp.{adrp_of, adr_word};

// "adrp Xd, page": the register, and immhi:immlo.
#[derive(Clone, Copy)]
pub struct Adrp {
    pub rd: u32,
    pub imm: u32,
}

impl Adrp {
    // op and 10000: bits 31 and 28..24.
    pub const MASK: u32 = 0x9f00_0000;

    // op 1, 10000.
    pub const FIXED: u32 = 0x9000_0000;

    // Those of ADR: op 0, 10000.
    pub const ADR_FIXED: u32 = 0x1000_0000;

    // immlo and immhi: bits 30..29 and 23..5.
    pub const IMM: u32 = 0x60ff_ffe0;

    // The Rust's is_adrp, with the fields.
    pub fn decode(insn: u32) -> Option<Adrp>
        ensures { result ≡ adrp_of insn }
    {
        if insn & Self::MASK == Self::FIXED {
            Some(Adrp {
                rd: insn % 0x20,
                imm: (insn / 0x20 % 0x8_0000) * 4 + insn / 0x2000_0000 % 4,
            })
        } else {
            None
        }
    }

    // The page that this ADRP at pc puts in its register (the Rust's adrp_page).
    pub fn page(self, pc: u64) -> u64
        ensures { result ≡ adrp_page self.imm pc }
    {
        let imm = self.imm as u64;
        util::wrapping_add(crate::page::page(pc), util::sign_extend(imm, 21) << 12)
    }
}

// "adr Xrd, target" at pc.
pub fn adr(rd: u32, target: u64, pc: u64) -> u32
    requires { rd < 32 }
    ensures { result ≡ adr_word rd target pc }
{
    let delta = (util::wrapping_sub(target, pc) % 0x20_0000) as u32;
    Adrp::ADR_FIXED + (delta % 4) * 0x2000_0000 + (delta / 4) * 0x20 + rd
}
