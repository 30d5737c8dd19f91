// What a hint rule is told and what it answers: words, addresses and entries in, a rewrite out (arch/arm64.rs, `is_page_rel` to `has_page_pair`).
#![tactic(auto)]

pub mod answer;
pub mod plans;
pub mod rels;
