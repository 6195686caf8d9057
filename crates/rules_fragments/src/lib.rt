// What becomes of a fragment (document 02, T-12), as definitions (specs/) and theorems (proofs/). The code is in the crate `gikev2`.
#![tactic(auto)]
