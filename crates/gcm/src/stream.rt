// GCTR (SP 800-38D, section 6.5) from inc_32(J_0) on, block by block, for a nonce of 96 bits.
ghost use Rattle.std.specs.Prelude.{◌≡◌, List, ◌++◌, ℕ, ◌+◌, ◌≤◌, ◌<◌, ◌^◌, length};
ghost use Rattle.octets.specs.Numbers.{oct, octets_of};
ghost use Rattle.fips197.specs.Cipher.{cipher};
ghost use Rattle.sp800_38d.specs.Encryption.{nonce_octets, most_text};
ghost use Rattle.sp800_38d.specs.Decryption.{plaintext};
ghost use Rattle.aes.specs.inner.Tables.{encipher_tables};
ghost use Rattle.aes.specs.inner.Schedule.{Expands, Expanded};
ghost use Rattle.gcm.specs.Opening.{put_at_start};
ghost use Rattle.gcm.specs.inner.Puts.{masked, PutsOctets};

use aes::{Pair, SCHEDULE_WORDS, TABLE_WORDS};
use octets::numbers::be32_at;
use octets::registers::{be64_at, block_of};

// A counter block, enciphered: the nonce and a number of 32 bits.
pub(crate) fn encipher_counter(
    tables: &[u32; TABLE_WORDS],
    schedule: &[u32; SCHEDULE_WORDS],
    nonce: &[u8],
    n: u64,
) -> Pair
    requires tables_value { (tables.now ≡ encipher_tables) × Expanded schedule.now }
    requires nonce_len { (length nonce.now ≡ nonce_octets) × (n < 2 ^ 32) }
    ensures { (key : List ℕ) → Expands key schedule.now →
        octets_of 8 result.hi ++ octets_of 8 result.lo ≡ cipher key (nonce.now ++ octets_of 4 n) }
{
    let high = be64_at(nonce, 0);
    let low = be32_at(nonce, 8) as u64 * 4294967296 + n;
    aes::encrypt_pair(tables, schedule, high, low)
}

// At most 16 octets of c, those from `at` up to `end`, with a block of the stream added.
fn add_block(m: [u8; 16], c: &[u8], at: usize, end: usize, room: &mut [u8])
    requires { (at ≤ end) × (end ≤ at + 16) × (end ≤ length c.now) × (end ≤ length room.old) }
    ensures { PutsOctets (masked m c.now at) at end room.old room.new }
{
    for i in at..end {
        room[i] = c[i] ^ m[i - at];
    }
}

// Deciphers the ciphertext to the start of the room.
pub fn gctr_in(
    tables: &[u32; TABLE_WORDS],
    schedule: &[u32; SCHEDULE_WORDS],
    nonce: &[u8],
    c: &[u8],
    room: &mut [u8],
)
    requires tables_value { (tables.now ≡ encipher_tables) × Expanded schedule.now }
    requires nonce_len { (length nonce.now ≡ nonce_octets) × (length c.now ≤ length room.old) × (length c.now ≤ most_text) }
    ensures { (key : List ℕ) → Expands key schedule.now →
        room.new ≡ put_at_start (plaintext key nonce.now c.now) room.old }
{
    let blocks = c.len() / 16;
    for i in 0..blocks {
        let m = encipher_counter(tables, schedule, nonce, 2 + i as u64);
        let at = 16 * i;
        add_block(block_of(m.hi, m.lo), c, at, at + 16, room);
    }
    let at = 16 * blocks;
    if at < c.len() {
        let m = encipher_counter(tables, schedule, nonce, 2 + blocks as u64);
        add_block(block_of(m.hi, m.lo), c, at, c.len(), room);
    }
}

// Deciphers one octet of the ciphertext.
pub fn gctr_at(
    tables: &[u32; TABLE_WORDS],
    schedule: &[u32; SCHEDULE_WORDS],
    nonce: &[u8],
    c: &[u8],
    i: usize,
) -> u8
    requires tables_value { (tables.now ≡ encipher_tables) × Expanded schedule.now }
    requires nonce_len { (length nonce.now ≡ nonce_octets) × (i < length c.now) × (length c.now ≤ most_text) }
    ensures { (key : List ℕ) → Expands key schedule.now →
        result ≡ oct (plaintext key nonce.now c.now) i }
{
    let m = encipher_counter(tables, schedule, nonce, (2 + i / 16) as u64);
    let b = block_of(m.hi, m.lo);
    c[i] ^ b[i % 16]
}
