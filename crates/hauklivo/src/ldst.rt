// The class of a load or store.
ghost use Rattle.std.specs.Prelude.{◌≡◌};
ghost use Rattle.arm64_insn.specs.LoadStore.{load_store_of};
ghost use Rattle.arm64_ldst_class.specs.Entry.{entry_of, class_seen};

use arm64_ldst_table::lookup;

// A word's entry in the table of load and store classes.
pub fn hauklivo_load_store_class(insn: u32) -> u8
    ensures { result ≡ entry_of (class_seen (load_store_of insn)) }
{
    lookup(insn)
}
