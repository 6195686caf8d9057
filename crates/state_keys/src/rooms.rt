// The octets that a value has room for: the most that its kind of key needs.

// A wrapping key: KW_5649_256.
pub const WRAPPING_KEY: usize = 32;

// The key of an ESP SA, or the encryption part of a Rekey SA's: AES-GCM-16 with 256 bits and four octets of salt.
pub const ENCRYPTION_KEY: usize = 36;

// The keying octets of any SA: those of a Rekey SA are an encryption part and a wrapping part.
pub const SA_OCTETS: usize = 68;

// The SPI of any SA: that of a Rekey SA.
pub const SA_SPI: usize = 16;
