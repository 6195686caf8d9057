// Document 02, T-14, "Order must not matter": a frame in another order, on octets (specs/), and that it has the same outcome (proofs/). The
// laws of order of one definition stand beside it, in the crates rules_refusals, rules_chains and rules_outcome. No code.
#![tactic(auto)]
