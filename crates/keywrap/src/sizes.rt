// The sizes of wrapping (RFC 3394, RFC 5649), for 1 to 256 octets as document 01 takes them.

// The most octets that are wrapped, and the registers for them: A, and one for each block of 8.
pub(crate) const MOST_OCTETS: usize = 256;

pub(crate) const REGISTERS: usize = 33;

// The wrapped octets: A and at least one block, at most all of them.
pub(crate) const LEAST_WRAPPED: usize = 16;

pub(crate) const MOST_WRAPPED: usize = 264;
