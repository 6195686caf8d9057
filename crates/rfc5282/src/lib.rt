// The sealed frame, as definitions: RFC 5282, RFC 7296, section 3.14, and RFC 7383. The code has the numbers alone; `specs/Sizes` has the
// same.
#![tactic(auto)]

// The Encrypted payload (RFC 7296, section 3.14) and the Encrypted Fragment payload (RFC 7383, section 2.5).
pub const ENCRYPTED: usize = 46;

pub const FRAGMENT: usize = 53;

// Octets of the salt, which ends the keying octets of AES-GCM (RFC 5282, section 7.1), and of the IV (section 3.1).
pub const SALT: usize = 4;

pub const IV: usize = 8;

// Where the body of the Encrypted payload stands in a frame that has no other, and its ciphertext, behind the IV.
pub const ENCRYPTED_BODY_AT: usize = 32;

pub const CIPHERTEXT_AT: usize = ENCRYPTED_BODY_AT + IV;

// Octets of Fragment Number and of Total Fragments (RFC 7383, section 2.5).
pub const FRAGMENT_FIELD: usize = 2;

// Where Fragment Number and Total Fragments stand in a frame that has an Encrypted Fragment payload alone, and the body behind them.
pub const FRAGMENT_NUMBER_AT: usize = ENCRYPTED_BODY_AT;

pub const TOTAL_FRAGMENTS_AT: usize = FRAGMENT_NUMBER_AT + FRAGMENT_FIELD;

pub const FRAGMENT_BODY_AT: usize = TOTAL_FRAGMENTS_AT + FRAGMENT_FIELD;

// Octets of the tag (SP 800-38D).
pub const TAG: usize = 16;
