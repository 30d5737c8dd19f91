// The rows of the manual's table "Load/store register (unsigned immediate)" (RULES 7.5), written out by size, V and opc.
ghost use Rattle.std.specs.Prelude.{◌≡◌, ◌<◌};
ghost use Rattle.arm64_insn.specs.LoadStoreTable.{row_of};
ghost use Rattle.ldst_table_rows.specs.Rows.{row_from};

// The mnemonics of the table.
#[derive(Clone, Copy, PartialEq, Eq)]
pub enum Mnemonic {
    Strb,
    Ldrb,
    Ldrsb,
    Strh,
    Ldrh,
    Ldrsh,
    Str,
    Ldr,
    Ldrsw,
    Prfm,
}

// A load or a store, of vector registers or general ones, with the bytes that it moves; a prefetch, which moves none; an unallocated encoding.
#[derive(Clone, Copy)]
pub enum Row {
    Load(Mnemonic, bool, u8),
    Store(Mnemonic, bool, u8),
    Prefetch(Mnemonic),
    Unallocated,
}

// The registers of a row: general ones, or vector ones.
const GENERAL: bool = false;

const VECTOR: bool = true;

// The row of size, V and opc.
#[tactic(auto, using(crate::proofs::RowLaws::row_at, crate::proofs::RowLaws::row_other))]
pub fn row_of(size: u32, v: u32, opc: u32) -> Row
    requires { (size < 4) × (v < 2) × (opc < 4) }
    ensures { result ≡ row_from (row_of size v opc) }
{
    match size * 8 + v * 4 + opc {
        0b00_0_00 => Row::Store(Mnemonic::Strb, GENERAL, 1),
        0b00_0_01 => Row::Load(Mnemonic::Ldrb, GENERAL, 1),
        0b00_0_10 => Row::Load(Mnemonic::Ldrsb, GENERAL, 1),
        0b00_0_11 => Row::Load(Mnemonic::Ldrsb, GENERAL, 1),
        0b00_1_00 => Row::Store(Mnemonic::Str, VECTOR, 1),
        0b00_1_01 => Row::Load(Mnemonic::Ldr, VECTOR, 1),
        0b00_1_10 => Row::Store(Mnemonic::Str, VECTOR, 16),
        0b00_1_11 => Row::Load(Mnemonic::Ldr, VECTOR, 16),
        0b01_0_00 => Row::Store(Mnemonic::Strh, GENERAL, 2),
        0b01_0_01 => Row::Load(Mnemonic::Ldrh, GENERAL, 2),
        0b01_0_10 => Row::Load(Mnemonic::Ldrsh, GENERAL, 2),
        0b01_0_11 => Row::Load(Mnemonic::Ldrsh, GENERAL, 2),
        0b01_1_00 => Row::Store(Mnemonic::Str, VECTOR, 2),
        0b01_1_01 => Row::Load(Mnemonic::Ldr, VECTOR, 2),
        0b10_0_00 => Row::Store(Mnemonic::Str, GENERAL, 4),
        0b10_0_01 => Row::Load(Mnemonic::Ldr, GENERAL, 4),
        0b10_0_10 => Row::Load(Mnemonic::Ldrsw, GENERAL, 4),
        0b10_1_00 => Row::Store(Mnemonic::Str, VECTOR, 4),
        0b10_1_01 => Row::Load(Mnemonic::Ldr, VECTOR, 4),
        0b11_0_00 => Row::Store(Mnemonic::Str, GENERAL, 8),
        0b11_0_01 => Row::Load(Mnemonic::Ldr, GENERAL, 8),
        0b11_0_10 => Row::Prefetch(Mnemonic::Prfm),
        0b11_1_00 => Row::Store(Mnemonic::Str, VECTOR, 8),
        0b11_1_01 => Row::Load(Mnemonic::Ldr, VECTOR, 8),
        _ => Row::Unallocated,
    }
}
