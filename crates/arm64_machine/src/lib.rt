// No code: the machine of RULES 9 as definitions (specs/), and the laws of its runs (proofs/).
#![tactic(auto)]
