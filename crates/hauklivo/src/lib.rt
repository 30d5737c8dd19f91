// The calls that a linker makes, over numbers and slices: 0 or a number of RULES 3.1. A refused call changes nothing lent.
#![tactic(auto)]

pub mod fixup;
pub mod hints;
pub mod ldst;
pub mod lister;
pub mod payload;
pub mod reader;
pub mod stub;
pub mod version;
