// One security association (SA) of a member's table.
// Internal: crates of this repository alone call it.
#![tactic(auto)]

pub mod clock;
pub mod entry;
