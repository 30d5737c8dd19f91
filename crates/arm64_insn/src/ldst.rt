// Load or store register (unsigned immediate).
ghost use Rattle.std.specs.Prelude.{◌≡◌, ◌+◌, ◌*◌, ◌^◌, ◌<◌};
ghost use Rattle.util.specs.Diagram.{matches};
ghost use Rattle.arm64_insn.specs.Encoding.{ldr_immediate};
ghost use Rattle.arm64_insn.specs.LoadStore.{load_store_of};
ghost use Rattle.arm64_insn.specs.LoadStoreSplit.{access, vector_access, general_access, access_by_split};
ghost use Rattle.arm64_insn.specs.Literal.{has_literal_form, literal_opc, literal_v, literal_word, Rebased, base_word};

// What an access moves: how many bytes, whether it stores them, and whether it is LDRSW.
#[derive(Clone, Copy)]
pub struct Access {
    pub bytes: u64,
    pub is_store: bool,
    pub is_ldrsw: bool,
}

impl Access {
    // The access of these.
    fn of(bytes: u64, is_store: bool, is_ldrsw: bool) -> Access
        ensures { result ≡ access bytes is_store is_ldrsw }
    {
        Access {
            bytes,
            is_store,
            is_ldrsw,
        }
    }
}

// What a word of the class moves. Bit 26 comes first: it is V and tells the register file.
fn access_of(v: bool, size: u32, bit_23: bool, bit_22: bool) -> Option<Access>
    requires { size < 4 }
    ensures { result ≡ access_by_split v size bit_23 bit_22 }
{
    if v {
        return vector_access(size, bit_23, bit_22);
    }
    general_access(size, bit_23, bit_22)
}

// A vector register: the size, then bit 23, then bit 22, which is clear in a store. With bit 23 set, size 00 is an access of 16 bytes, and every
// other size is unallocated.
#[tactic(auto, unfolding(crate::specs::LoadStoreSplit::vector_access, util::specs::Choice::choose))]
fn vector_access(size: u32, bit_23: bool, bit_22: bool) -> Option<Access>
    requires { size < 4 }
    ensures { result ≡ vector_access size bit_23 bit_22 }
{
    if size == 3 {
        if bit_23 {
            return None;
        }
        return Some(Access::of(8, !bit_22, false));
    }
    if size == 2 {
        if bit_23 {
            return None;
        }
        return Some(Access::of(4, !bit_22, false));
    }
    if size == 1 {
        if bit_23 {
            return None;
        }
        return Some(Access::of(2, !bit_22, false));
    }
    if bit_23 {
        return Some(Access::of(16, !bit_22, false));
    }
    Some(Access::of(1, !bit_22, false))
}

// A general register: the size, then bit 23, then bit 22. With bit 23 clear, bit 22 is clear in a store. With bit 23 set, size 11 is PRFM, which
// moves nothing, or unallocated; size 10 is LDRSW, or unallocated where bit 22 is set; sizes 01 and 00 are loads that copy the sign.
#[tactic(auto, unfolding(crate::specs::LoadStoreSplit::general_access, util::specs::Choice::choose))]
fn general_access(size: u32, bit_23: bool, bit_22: bool) -> Option<Access>
    requires { size < 4 }
    ensures { result ≡ general_access size bit_23 bit_22 }
{
    if size == 3 {
        if bit_23 {
            return None;
        }
        return Some(Access::of(8, !bit_22, false));
    }
    if size == 2 {
        if bit_23 {
            if bit_22 {
                return None;
            }
            return Some(Access::of(4, false, true));
        }
        return Some(Access::of(4, !bit_22, false));
    }
    if bit_23 {
        return Some(Access::of(1u64 << size, false, false));
    }
    Some(Access::of(1u64 << size, !bit_22, false))
}

// A load or store with a scaled unsigned offset.
#[derive(Clone, Copy)]
pub struct LoadStore {
    pub insn: u32,
    pub reg: u32,
    pub base: u32,
    // in bytes: the 12-bit immediate times `size`
    pub offset: u64,
    pub size: u64,
    pub is_store: bool,
    pub is_float: bool,
    pub is_ldrsw: bool,
}

impl LoadStore {
    // 111 and 01: bits 29..27 and 25..24.
    pub const MASK: u32 = 0x3b00_0000;

    // 111, 01.
    pub const FIXED: u32 = 0x3900_0000;

    // Within the class, what tells 16 bytes of a vector register: size, V and the high bit of opc, bits 31..30, 26 and 23.
    pub const QUAD_MASK: u32 = 0xc480_0000;

    // size 00, V 1, opc 1x.
    pub const QUAD_FIXED: u32 = 0x0480_0000;

    // LDR of Wt or Xt: the high bit of size, 111, V, 01 and opc, bits 31 and 29..22.
    pub const LDR_MASK: u32 = 0xbfc0_0000;

    // size 1x, 111, V 0, 01, opc 01.
    pub const LDR_FIXED: u32 = 0xb940_0000;

    // LDR of Xt: size 11, 111, V 0, 01, opc 01.
    pub const LDR_X: u32 = 0xf940_0000;

    // imm12, of an ADD too: bits 21..10.
    pub const IMM12: u32 = 0x003f_fc00;

    // All but Rn and imm12: size, 111, V, 01, opc and Rt, bits 31..22 and 4..0.
    pub const BUT_ADDRESS: u32 = 0xffc0_001f;

    // Bits 31..24 of a load register (literal), opc 011 V 00, of Wt: opc 00, V 0.
    pub const LITERAL_W: u32 = 0x18;

    // Of Xt: opc 01, V 0.
    pub const LITERAL_X: u32 = 0x58;

    // LDRSW: opc 10, V 0.
    pub const LITERAL_SW: u32 = 0x98;

    // Of St: opc 00, V 1.
    pub const LITERAL_S: u32 = 0x1c;

    // Of Dt: opc 01, V 1.
    pub const LITERAL_D: u32 = 0x5c;

    // Of Qt: opc 10, V 1.
    pub const LITERAL_Q: u32 = 0x9c;

    // The Rust's parse_ldst, but for the unallocated words of RULES 7.19, and in an order of its own: the class first, since outside it bit 26
    // may be no V; then bit 26, the size, bit 23, bit 22.
    pub fn decode(insn: u32) -> Option<LoadStore>
        ensures { result ≡ load_store_of insn }
    {
        if insn & Self::MASK != Self::FIXED {
            return None;
        }
        let v = insn / 0x400_0000 % 2 == 1;
        let size = insn / 0x4000_0000 % 4;
        let bit_23 = insn / 0x80_0000 % 2 == 1;
        let bit_22 = insn / 0x40_0000 % 2 == 1;
        let access = access_of(v, size, bit_23, bit_22)?;
        let imm = (insn / 0x400 % 0x1000) as u64;
        Some(LoadStore {
            insn,
            reg: insn % 0x20,
            base: insn / 0x20 % 0x20,
            offset: imm * access.bytes,
            size: access.bytes,
            is_store: access.is_store,
            is_float: v,
            is_ldrsw: access.is_ldrsw,
        })
    }

    // Whether this load has a pc-relative literal form: loads of 4, 8 and 16 bytes have one.
    pub fn has_literal_form(self) -> bool
        ensures { result ≡ has_literal_form self }
    {
        self.size >= 4 && !self.is_store
    }

    // This load as a literal load of target, at pc.
    pub fn to_literal(self, target: u64, pc: u64) -> u32
        requires { self.reg < 32 }
        ensures { result ≡ literal_word self target pc }
    {
        let op = literal_op(self.size, self.is_float, self.is_ldrsw);
        let delta = util::wrapping_sub(target, pc);
        op * 0x100_0000 + ((delta / 4 % 0x8_0000) * 0x20) as u32 + self.reg
    }

    // This access through another base register and byte offset.
    pub fn with_base(self, base: u32, offset: u64) -> u32
        requires { Rebased self base offset }
        ensures { result ≡ base_word self base offset }
    {
        let size = self.size;
        let imm = (offset / size) as u32;
        (self.insn & Self::BUT_ADDRESS) + base * 0x20 + imm * 0x400
    }
}

// Bits 31 to 24 of a literal load: opc, 011, V, 00.
fn literal_op(size: u64, is_float: bool, is_ldrsw: bool) -> u32
    ensures { result ≡ literal_opc size is_float is_ldrsw * 2 ^ 6 + 0b011 * 2 ^ 3 + literal_v size is_float * 2 ^ 2 }
{
    if size == 4 {
        if is_float {
            return LoadStore::LITERAL_S;
        }
        if is_ldrsw {
            return LoadStore::LITERAL_SW;
        }
        return LoadStore::LITERAL_W;
    }
    if size == 8 {
        if is_float {
            return LoadStore::LITERAL_D;
        }
        return LoadStore::LITERAL_X;
    }
    LoadStore::LITERAL_Q
}

// Whether a word is "ldr Xt|Wt, [Xn, #imm]".
pub fn is_ldr_imm(insn: u32) -> bool
    ensures { result ≡ matches ldr_immediate insn }
{
    insn & LoadStore::LDR_MASK == LoadStore::LDR_FIXED
}
