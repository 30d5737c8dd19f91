// Payloads of linker optimization hints, LC_LINKER_OPTIMIZATION_HINT, and the row of values that one holds (RULES 14).
#![tactic(auto)]

pub mod expected;
pub mod read;
pub mod write;
