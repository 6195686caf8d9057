// Makes the state of a member after it accepted a frame.
// Internal: crates of this repository alone call it.
#![tactic(auto)]

pub mod entering;
pub mod next;
pub mod retiring;
pub mod standing;
