// The A64 instruction words that the arm64 linker reads, makes and patches (arch/arm64.rs).
#![tactic(auto)]

pub mod add;
pub mod adrp;
pub mod branch;
pub mod fix;
pub mod ldst;
pub mod links;
pub mod page;
pub mod stub;
