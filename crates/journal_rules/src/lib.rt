// The journal of a member (document 02, T-13), as definitions (specs/) and laws (proofs/). The code is in the crate `journaling`.
#![tactic(auto)]
