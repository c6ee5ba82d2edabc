// The SplitLess module (specs/) and its tie to the rules (proofs/): no code stands here.
#![tactic(auto)]
