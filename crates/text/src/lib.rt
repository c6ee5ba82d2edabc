// What the program prints is defined here (specs/), with the laws of its numbers (proofs/): no code stands here.
#![tactic(auto)]
