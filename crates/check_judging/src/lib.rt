// The first of document 01's numbers 2 to 7 that applies to a frame whose layout is whole. Numbers 2 and 3 stand in `check_admission`.
// Internal: crates of this repository alone call it.
#![tactic(auto)]

pub mod facts;
pub mod number4;
pub mod number5;
pub mod number6;
pub mod number7;
pub mod numbers;
pub mod refusal;
