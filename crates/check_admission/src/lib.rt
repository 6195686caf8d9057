// Refusals 2 and 3 of document 01: whether a frame is for this member at all, by fields of its header and the member's state alone.
// Internal: crates of this repository alone call it.
#![tactic(auto)]

pub mod number2;
pub mod number3;
