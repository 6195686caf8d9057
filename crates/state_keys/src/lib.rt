// What a member's keys are: document 01's limits, the algorithm table, and a type for each kind of key.
// For customers: the kinds of key. All else is internal.
#![tactic(auto)]

pub mod algorithms;
pub mod kinds;
pub mod limits;
pub mod rooms;
