// The reader of x86_64 relocation records (arch/x86_64.rs, `is_supported`, `reloc_bias`, `read_relocs`).
#![tactic(auto)]

pub mod addend;
pub mod check;
pub mod read;
pub mod support;
