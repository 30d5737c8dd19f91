// The class of a load or store, and its number: an entry of the table of classes (RULES 7.32).
#![tactic(auto)]

ghost use Rattle.std.specs.Prelude.{◌≡◌};
ghost use Rattle.arm64_ldst_class.specs.Entry.{entry_of};

use util::bit;

// What the words with the same bits 31 to 22 move: how many bytes, whether they store them, whether the register is a vector one, whether they are LDRSW.
#[derive(Clone, Copy)]
pub struct LoadStoreClass {
    pub bytes: u8,
    pub stores: bool,
    pub vector: bool,
    pub ldrsw: bool,
}

// The number of a class: 0 where the words are neither load nor store.
pub fn entry(class: Option<LoadStoreClass>) -> u32
    ensures { result ≡ entry_of class }
{
    match class {
        Some(c) => (c.bytes as u32) * 8 + bit(c.stores) * 4 + bit(c.vector) * 2 + bit(c.ldrsw),
        None => 0,
    }
}
