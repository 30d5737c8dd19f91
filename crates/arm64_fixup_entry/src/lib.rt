// One entry of a fix-up: which number it is turned down with, and what it does to the section (arch/arm64.rs, apply_reloc_alloc).
#![tactic(auto)]

pub mod change;
pub mod check;
pub mod target;
