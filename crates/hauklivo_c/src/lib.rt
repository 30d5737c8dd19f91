// The static library for C: each call of the crate hauklivo under its name, with its clauses.
#![tactic(auto)]

pub mod fixup;
pub mod hints;
pub mod ldst;
pub mod lister;
pub mod payload;
pub mod reader;
pub mod stub;
pub mod version;
