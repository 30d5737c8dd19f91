// Fix-up of a section by its entries and their resolved targets, and single stub and thunk entries (arch/arm64.rs).
#![tactic(auto)]

pub mod stub;
pub mod walk;
