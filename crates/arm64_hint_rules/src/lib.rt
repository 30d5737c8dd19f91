// The eight hint rules at work: each on its section, by the decision of its kind (arch/arm64.rs, `loh_*`).
#![tactic(auto)]

pub mod decide;
pub mod loh;
pub mod outcome;
pub mod part;
pub mod store;
