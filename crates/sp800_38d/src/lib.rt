// Galois/Counter Mode, NIST SP 800-38D, as definitions (specs/) and laws (proofs/), over AES. The code is in the crate `gcm`.
#![tactic(auto)]
