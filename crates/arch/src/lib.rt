// What the readers of relocation records share, whatever the machine (macho/arch/mod.rs, and `section_target` of input_files.rs).
#![tactic(auto)]

pub mod form;
pub mod lent;
pub mod reader;
pub mod step;
pub mod table;
pub mod target;
