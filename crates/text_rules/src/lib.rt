// The text that the programs read and print, as definitions (specs/) and laws (proofs/). The code is in the crate `text_lines`.
#![tactic(auto)]
