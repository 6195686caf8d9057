// Chains of wrapped keys, as definitions (specs/) and laws (proofs/). The code is in the crates `unwrap_search` and `unwrap_paths`.
#![tactic(auto)]
