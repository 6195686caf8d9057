// The kinds of key. Each carries the octet counts of its kind as constants and has a constructor, so that a key of one kind is never taken
// for one of another because their sizes agree. Octets past a key's count are 0 in every value that a constructor makes.
// Kept as types of their own: one type over a kind and a size would have to carry both at every use, and what they share is `padded`.
ghost use Rattle.std.specs.Prelude.{◌≡◌, ◌≤◌, [], length};
ghost use Rattle.state_keys.specs.Algorithms.{is_wrapping_size, is_encryption_size};
ghost use Rattle.state_keys.specs.Kinds.{padded, wrapping_of, wrapping_key, esp_key, encryption_key, rekey_sizes, rekey_key};
ghost use Rattle.state_keys.specs.Kinds.{key_wrap_part, encryption_part};

use crate::rooms::{ENCRYPTION_KEY, SA_OCTETS, WRAPPING_KEY};

// A wrapping key: 16, 24 or 32 octets.
// Kept as an array with its count, since memory is fixed.
#[derive(Clone, Copy, PartialEq, Eq)]
pub struct WrappingKey {
    pub octets: [u8; WRAPPING_KEY],
    pub count: usize,
}

// The keying octets of an ESP SA: 20, 28 or 36 octets.
// Kept as an array with its count, since memory is fixed.
#[derive(Clone, Copy)]
pub struct EspKey {
    pub octets: [u8; ENCRYPTION_KEY],
    pub count: usize,
}

// The encryption part of a Rekey SA's keying octets, GSK_e: 20, 28 or 36 octets.
// Kept as an array with its count, since memory is fixed.
#[derive(Clone, Copy)]
pub struct EncryptionKey {
    pub octets: [u8; ENCRYPTION_KEY],
    pub count: usize,
}

// The keying octets of a Rekey SA with the octet counts of their two parts, GSK_e and then GSK_w.
// Kept as an array with its count, since memory is fixed.
#[derive(Clone, Copy)]
pub struct RekeyKey {
    pub octets: [u8; SA_OCTETS],
    pub encryption: usize,
    pub wrapping: usize,
}

// Puts `octets` at the front of `N` octets, with blanks behind them.
pub fn padded<const N: usize>(octets: &[u8]) -> [u8; N]
    requires { length octets.now ≤ N }
    ensures { result ≡ padded N octets.now }
{
    let mut out = [0u8; N];
    out[..octets.len()].copy_from_slice(octets);
    out
}

impl WrappingKey {
    // The octets of a key for KW_5649_128, KW_5649_192 and KW_5649_256.
    pub const KW_128: usize = 16;

    pub const KW_192: usize = 24;

    pub const KW_256: usize = 32;

    // Whether a wrapping key can have `n` octets.
    pub fn is_size(n: usize) -> bool
        ensures { result ≡ is_wrapping_size n }
    {
        [
            WrappingKey::KW_128,
            WrappingKey::KW_192,
            WrappingKey::KW_256,
        ]
        .contains(&n)
    }

    // Makes a wrapping key from `octets`, if it can have as many.
    pub fn new(octets: &[u8]) -> Option<WrappingKey>
        ensures { result ≡ wrapping_key octets.now }
    {
        let count = octets.len();
        if !WrappingKey::is_size(count) {
            return None;
        }
        Some(WrappingKey {
            octets: padded(octets),
            count,
        })
    }

    // Makes the value of an unused place: a key of no octets.
    pub fn blank() -> WrappingKey
        ensures { result ≡ wrapping_of [] }
    {
        WrappingKey {
            octets: [0u8; WRAPPING_KEY],
            count: 0,
        }
    }
}

impl EncryptionKey {
    // The octets that AES-GCM-16 needs with keys of 128, 192 and 256 bits: the key and 4 octets of salt.
    pub const GCM_128: usize = 20;

    pub const GCM_192: usize = 28;

    pub const GCM_256: usize = 36;

    // Whether an encryption part can have `n` octets.
    pub fn is_size(n: usize) -> bool
        ensures { result ≡ is_encryption_size n }
    {
        [
            EncryptionKey::GCM_128,
            EncryptionKey::GCM_192,
            EncryptionKey::GCM_256,
        ]
        .contains(&n)
    }

    // Makes an encryption part from `octets`, if it can have as many.
    pub fn new(octets: &[u8]) -> Option<EncryptionKey>
        ensures { result ≡ encryption_key octets.now }
    {
        let count = octets.len();
        if !EncryptionKey::is_size(count) {
            return None;
        }
        Some(EncryptionKey {
            octets: padded(octets),
            count,
        })
    }
}

impl EspKey {
    // The octets that AES-GCM-16 needs with keys of 128, 192 and 256 bits: the key and 4 octets of salt.
    pub const GCM_128: usize = 20;

    pub const GCM_192: usize = 28;

    pub const GCM_256: usize = 36;

    // Whether an ESP SA can have `n` keying octets.
    pub fn is_size(n: usize) -> bool
        ensures { result ≡ is_encryption_size n }
    {
        [EspKey::GCM_128, EspKey::GCM_192, EspKey::GCM_256].contains(&n)
    }

    // Makes the keying octets of an ESP SA from `octets`, if it can have as many.
    pub fn new(octets: &[u8]) -> Option<EspKey>
        ensures { result ≡ esp_key octets.now }
    {
        let count = octets.len();
        if !EspKey::is_size(count) {
            return None;
        }
        Some(EspKey {
            octets: padded(octets),
            count,
        })
    }
}

impl RekeyKey {
    // The most octets that a Rekey SA's two parts have together.
    pub const MOST: usize = EncryptionKey::GCM_256 + WrappingKey::KW_256;

    // Whether the two parts of a Rekey SA's keying octets can have `encryption` and `wrapping` octets.
    pub fn are_sizes(encryption: usize, wrapping: usize) -> bool
        ensures { result ≡ rekey_sizes encryption wrapping }
    {
        EncryptionKey::is_size(encryption) && WrappingKey::is_size(wrapping)
    }

    // Makes the keying octets of a Rekey SA from `octets`: GSK_e of `encryption` octets, then GSK_w of `wrapping` octets.
    pub fn new(octets: &[u8], encryption: usize, wrapping: usize) -> Option<RekeyKey>
        ensures { result ≡ rekey_key octets.now encryption wrapping }
    {
        if !RekeyKey::are_sizes(encryption, wrapping) {
            return None;
        }
        if octets.len() != encryption + wrapping {
            return None;
        }
        Some(RekeyKey {
            octets: padded(octets),
            encryption,
            wrapping,
        })
    }

    // Cuts out GSK_e (RFC 9838, section 3.4), the first octets: the key and salt under which the Rekey SA's messages are encrypted.
    pub fn encryption_part(self) -> Option<EncryptionKey>
        ensures { result ≡ encryption_part self }
    {
        let e = self.encryption;
        if !RekeyKey::are_sizes(e, self.wrapping) {
            return None;
        }
        let o = self.octets;
        EncryptionKey::new(&o[..e])
    }

    // Cuts out GSK_w (RFC 9838, section 3.4), the last octets: the default key of the Rekey SA, under which keys are wrapped.
    pub fn key_wrap_part(self) -> Option<WrappingKey>
        ensures { result ≡ key_wrap_part self }
    {
        let e = self.encryption;
        let w = self.wrapping;
        if !RekeyKey::are_sizes(e, w) {
            return None;
        }
        let o = self.octets;
        WrappingKey::new(&o[e..e + w])
    }
}
