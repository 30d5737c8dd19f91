// The hint run: the check of all hints, then each at work in the order of work, with a record of each where it is listed, and the tally by value or
// lent (arch/arm64.rs, `apply_hints`).
#![tactic(auto)]

pub mod run;
pub mod tally;
