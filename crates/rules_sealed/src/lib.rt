// What becomes of a sealed frame (document 02, T-05), as definitions (specs/) and theorems (proofs/). The code is in the crate `gikev2`.
#![tactic(auto)]
