// The theorems that docs/CLAIMS.md cites, by the sections of that page (proofs/). There is no code.
#![tactic(auto)]
