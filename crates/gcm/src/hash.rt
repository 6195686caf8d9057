// GHASH (SP 800-38D, section 6.4), and what it is taken of in section 7.1.
ghost use Rattle.std.specs.Prelude.{◌≡◌, List, ℕ, ◌+◌, ◌≤◌, length, drop};
ghost use Rattle.std.specs.Int.Bits.{bit_xor};
ghost use Rattle.octets.specs.Numbers.{number};
ghost use Rattle.sp800_38d.specs.Product.{product};
ghost use Rattle.sp800_38d.specs.Ghash.{block_numbers, ghash_from, ghash};
ghost use Rattle.sp800_38d.specs.Encryption.{most_text, most_data, hash_subkey, blocks_in, hash_input};
ghost use Rattle.aes.specs.inner.Tables.{encipher_tables};
ghost use Rattle.aes.specs.inner.Schedule.{Expands, Expanded};
ghost use Rattle.gcm.specs.inner.Halves.{pair_number};
ghost use Rattle.gcm.specs.inner.Multiples.{Multiples};

use crate::product::{make_multiples, multiply};
use aes::{Pair, SCHEDULE_WORDS, TABLE_WORDS};
use octets::registers::be64_at;

// The block of the 16 octets from `at` on.
pub(crate) fn block_at(s: &[u8], at: usize) -> Pair
    requires { at + 16 ≤ length s.now }
    ensures { pair_number result ≡ number 16 (drop at s.now) }
{
    let hi = be64_at(s, at);
    let lo = be64_at(s, at + 8);
    Pair { hi, lo }
}

// The block of the last octets, with zeros behind them.
fn last_block(s: &[u8]) -> Pair
    requires { length s.now ≤ 16 }
    ensures { pair_number result ≡ number 16 s.now }
{
    let mut b = [0u8; 16];
    octets::copying::copy(s, &mut b);
    block_at(&b, 0)
}

// One turn of GHASH.
fn hash_block(w: &[u64], z: Pair, x: Pair) -> Pair
    requires { length w.now ≡ 32 }
    ensures { (h : ℕ) → Multiples h w.now → pair_number result ≡ product (bit_xor (pair_number z) (pair_number x)) h }
{
    let y = Pair {
        hi: z.hi ^ x.hi,
        lo: z.lo ^ x.lo,
    };
    multiply(w, y)
}

// GHASH goes on over octets, zeros behind the last block, by the multiples of H.
fn absorb(w: &[u64], y: Pair, s: &[u8]) -> Pair
    requires { length w.now ≡ 32 }
    ensures { (h : ℕ) → Multiples h w.now →
        pair_number result ≡ ghash_from h (pair_number y) (block_numbers (blocks_in (length s.now)) s.now) }
{
    let mut z = y;
    let blocks = s.len() / 16;
    for i in 0..blocks {
        z = hash_block(w, z, block_at(s, 16 * i));
    }
    let at = 16 * blocks;
    if at < s.len() {
        z = hash_block(w, z, last_block(&s[at..]));
    }
    z
}

// The multiples of H, the block of zeros enciphered.
pub(crate) fn make_subkey(
    tables: &[u32; TABLE_WORDS],
    schedule: &[u32; SCHEDULE_WORDS],
) -> [u64; 32]
    requires { (tables.now ≡ encipher_tables) × Expanded schedule.now }
    ensures { (key : List ℕ) → Expands key schedule.now → Multiples (hash_subkey key) result }
{
    let h = aes::encrypt_pair(tables, schedule, 0, 0);
    make_multiples(h)
}

// GHASH of the additional data, the ciphertext and their two lengths, one after the other: nothing is copied.
pub(crate) fn hash_all(w: &[u64], a: &[u8], c: &[u8]) -> Pair
    requires w_len { length w.now ≡ 32 }
    requires a_len_bound { (length a.now ≤ most_data) × (length c.now ≤ most_text) }
    ensures { (h : ℕ) → Multiples h w.now → pair_number result ≡ ghash h (hash_input a.now c.now) }
{
    let zero = Pair { hi: 0, lo: 0 };
    let x = absorb(w, zero, a);
    let y = absorb(w, x, c);
    let lengths = Pair {
        hi: 8 * a.len() as u64,
        lo: 8 * c.len() as u64,
    };
    hash_block(w, y, lengths)
}
