// What becomes of a member when it is handed a frame, as definitions (specs/) and laws (proofs/). The code is in the crates check_judging,
// unwrap_tree, unwrap_sas, apply, receive and gikev2.
#![tactic(auto)]
