// The reader of arm64 relocation records (arch/arm64.rs, `is_supported`, `check_reloc`, `read_relocs`).
#![tactic(auto)]

pub mod check;
pub mod plain;
pub mod read;
pub mod record;
pub mod support;
