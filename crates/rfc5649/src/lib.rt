// Key wrapping, RFC 3394 and RFC 5649, as definitions (specs/) and laws (proofs/). The code is in the crate `keywrap`.
#![tactic(auto)]
