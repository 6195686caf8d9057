// Document 02, T-14, for the call on an opened frame: two calls of `Member::receive` on a frame and on one rearranged. A theorem over its
// promise, above `gikev2` so that neither its check nor that of `rules_order` pays for the other. No code.
#![tactic(auto)]
