// The table of load and store classes (RULES 7.32), and a word's entry in it.
#![tactic(auto)]

pub mod table;

ghost use Rattle.std.specs.Prelude.{◌≡◌};
ghost use Rattle.arm64_insn.specs.LoadStore.{load_store_of};
ghost use Rattle.arm64_ldst_class.specs.Entry.{entry_of, class_seen};

use table::CLASSES;

// The entry of a word: of the class that the decoder sees.
pub fn lookup(insn: u32) -> u8
    ensures { result ≡ entry_of (class_seen (load_store_of insn)) }
{
    CLASSES[(insn / 0x40_0000 % 0x400) as usize]
}
