// FIPS 197's own examples, computed on the definitions of `fips197`. A crate by itself: where a definition is wrong, they are slow to fail.
#![tactic(auto)]
