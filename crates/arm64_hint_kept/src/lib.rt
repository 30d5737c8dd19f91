// What a run of hints keeps (RULES 9): definitions and theorems only, in specs/ and proofs/.
#![tactic(auto)]
