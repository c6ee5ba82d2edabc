// The claims about every history of calls are definitions (specs/) and theorems (proofs/): no code stands here.
#![tactic(auto)]
