// No code: words at places of an image (specs/), and the laws of steps that read and write them (proofs/).
#![tactic(auto)]
