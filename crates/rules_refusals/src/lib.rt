// Refusals 2 to 7 of document 01, clause by clause, as definitions over a frame's tree and the member's state (specs/), with the laws about
// them (proofs/). The code is in the crates check_*.
#![tactic(auto)]
