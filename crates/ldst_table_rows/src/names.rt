// The name of an index's row, put on a page.
ghost use Rattle.std.specs.Prelude.{◌≡◌};
ghost use Rattle.text.specs.Prints.{HasRoom, Prints};
ghost use Rattle.ldst_table_rows.specs.Names.{mnemonic_name, row_name, name_at};

use crate::class::has_fixed_fields;
use crate::rows::{Mnemonic, Row, row_of};
use text::Page;

impl Mnemonic {
    // The manual's spelling.
    fn name(self) -> &'static [u8]
        ensures { result.now ≡ mnemonic_name self }
    {
        match self {
            Mnemonic::Strb => b"STRB",
            Mnemonic::Ldrb => b"LDRB",
            Mnemonic::Ldrsb => b"LDRSB",
            Mnemonic::Strh => b"STRH",
            Mnemonic::Ldrh => b"LDRH",
            Mnemonic::Ldrsh => b"LDRSH",
            Mnemonic::Str => b"STR",
            Mnemonic::Ldr => b"LDR",
            Mnemonic::Ldrsw => b"LDRSW",
            Mnemonic::Prfm => b"PRFM",
        }
    }
}

impl Row {
    // The name of a row: its mnemonic, where it has one.
    fn name(self) -> &'static [u8]
        ensures { result.now ≡ row_name self }
    {
        match self {
            Row::Load(mnemonic, _, _) | Row::Store(mnemonic, _, _) | Row::Prefetch(mnemonic) =>
                mnemonic.name(),
            Row::Unallocated => b"unallocated",
        }
    }
}

// Puts the name of an index's row and a colon, where it has one.
#[tactic(auto, using(text::proofs::Prints::prints_then, text::proofs::Prints::prints_none, crate::proofs::NameLaws::row_length), unfolding(util::specs::Choice::choose, crate::specs::Names::name_at))]
pub fn put_name(page: &mut Page, k: u32)
    requires { HasRoom page.old 13 }
    ensures { Prints page.old (name_at k) page.new }
{
    if has_fixed_fields(k) {
        let row = row_of(k / 256 % 4, k / 16 % 2, k % 4);
        page.put(row.name());
        page.put(b": ");
    }
}
