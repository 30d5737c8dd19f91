// One hint at work on the lent image, the tally that counts it, and the rule that a listing names (arch/arm64.rs, `apply_hints`: the body of its loop).
#![tactic(auto)]

pub mod rule;
pub mod tally;
pub mod work;
