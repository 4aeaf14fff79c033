// The claims about the rules: what holds of one run and of two, as statements (specs/) and proved (proofs/). No function.
#![tactic(auto)]
