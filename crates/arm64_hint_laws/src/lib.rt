// What is decided of a hint, by number 31 and by the rule of its kind, and what is proved of every decision: definitions and theorems, no code.
#![tactic(auto)]
