// A hint that holds the bytes of its section, as in the Rust (arch/arm64.rs, `Hint`).
#![tactic(auto)]

pub mod hint;
pub mod place;
pub mod words;
