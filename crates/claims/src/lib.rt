// What is proved, in one place: records by subject, a field for each sentence; statements and their proofs, no code.
#![tactic(auto)]
