// What the programs share that replay a list of answers of the unchanged Rust: its records (tests/driver/answers.rs), the bytes that a
// call is lent, and the table that is written.
#![tactic(auto)]

pub mod head;
pub mod lent;
pub mod list;
pub mod replay;
pub mod seen;
