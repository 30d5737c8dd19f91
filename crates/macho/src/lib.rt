// The records that a linker lends and gets back, and the numbers in them (macho.rs, macho_consts.rs, input_sections.rs).
#![tactic(auto)]

pub mod authenticated;
pub mod byte;
pub mod consts;
pub mod hint;
pub mod list;
pub mod mach_rel;
pub mod refusal;
pub mod reloc;
pub mod report;
pub mod resolved;
pub mod rule_record;
