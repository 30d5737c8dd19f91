// The class of an index, bits 31 to 22 of a word, from the manual's rows.
ghost use Rattle.std.specs.Prelude.{◌≡◌, ◌<◌};
ghost use Rattle.util.specs.Diagram.{matches};
ghost use Rattle.arm64_insn.specs.Encoding.{load_store_high};
ghost use Rattle.arm64_insn.specs.LoadStoreTable.{row_of};
ghost use Rattle.arm64_ldst_class.specs.Row.{class_of_row, class_of_index};

use crate::rows::{Mnemonic, Row, row_of};
use arm64_ldst_class::LoadStoreClass;

// What size, V and opc move.
fn class_of_fields(size: u32, v: u32, opc: u32) -> Option<LoadStoreClass>
    requires { (size < 4) × (v < 2) × (opc < 4) }
    ensures { result ≡ class_of_row (row_of size v opc) }
{
    match row_of(size, v, opc) {
        Row::Load(mnemonic, vector, bytes) => {
            Some(LoadStoreClass {
                bytes,
                stores: false,
                vector,
                ldrsw: mnemonic == Mnemonic::Ldrsw,
            })
        }
        Row::Store(_, vector, bytes) => Some(LoadStoreClass {
            bytes,
            stores: true,
            vector,
            ldrsw: false,
        }),
        Row::Prefetch(_) | Row::Unallocated => None,
    }
}

// Whether an index has the fixed fields of a load or store: 111 in bits 29 to 27 of the word, 01 in bits 25 and 24.
#[tactic(auto, using(crate::proofs::ClassLaws::fixed_fields))]
pub fn has_fixed_fields(k: u32) -> bool
    ensures { result ≡ matches load_store_high k }
{
    k / 4 % 4 == 0b01 && k / 32 % 8 == 0b111
}

// The class of an index.
#[tactic(auto, unfolding(util::specs::Choice::choose, arm64_ldst_class::specs::Row::class_of_index))]
pub fn class_of_index(k: u32) -> Option<LoadStoreClass>
    ensures { result ≡ class_of_index k }
{
    if has_fixed_fields(k) {
        class_of_fields(k / 256 % 4, k / 16 % 2, k % 4)
    } else {
        None
    }
}
