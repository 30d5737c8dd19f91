// The generator's own rows of loads and stores (RULES 7.33), written out after the manual, their names, and the class of each index by them.
#![tactic(auto)]

pub mod class;
pub mod names;
pub mod rows;
