// Whole runs of single books as the rules give them, worked out by hand (specs/) and computed (proofs/). No function.
#![tactic(auto)]
