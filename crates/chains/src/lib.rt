// Days in a row: demand 3 over what the entries `run` and `write` ensure, as statements (specs/) and proved (proofs/). No function.
#![tactic(auto)]
