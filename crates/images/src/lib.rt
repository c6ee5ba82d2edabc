// What an image holds, and what each call answers and leaves, are definitions (specs/) and their laws (proofs/): no code stands here.
#![tactic(auto)]
