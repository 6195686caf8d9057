// Tests on lists, and lists with elements left out or inserted, as definitions (specs/) and laws (proofs/): what the library has not.
#![tactic(auto)]
