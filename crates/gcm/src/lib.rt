// AES-GCM (NIST SP 800-38D) with a nonce of 96 bits and a tag of 128: octets opened into lent room. For a caller with a schedule of its
// own: the tag verified, any first part deciphered, and one octet deciphered from its block alone.
// For customers: `open`. All else is internal.
#![tactic(auto)]

mod hash;
mod product;
pub mod stream;

ghost use Rattle.std.specs.Prelude.{◌≡◌, List, ℕ, ◌+◌, ◌≤◌, eqb, length};
ghost use Rattle.octets.specs.Numbers.{number};
ghost use Rattle.sp800_38d.specs.Encryption.{nonce_octets, tag_octets, most_text, most_data, tag};
ghost use Rattle.aes.specs.inner.Tables.{encipher_tables};
ghost use Rattle.aes.specs.inner.Schedule.{Expands, Expanded};
ghost use Rattle.gcm.specs.Opening.{UnsealAnswers};
ghost use Rattle.gcm.specs.inner.Halves.{pair_number};
ghost use Rattle.gcm.specs.inner.Judged.{UnsealJudged};

use aes::{Pair, SCHEDULE_WORDS, TABLE_WORDS};
use hash::{block_at, hash_all, make_subkey};
use stream::{encipher_counter, gctr_in};

const NONCE_OCTETS: usize = 12;

const TAG_OCTETS: usize = 16;

// SP 800-38D, section 5.2.1.1: 2^39 - 256 bits of text, 2^64 - 1 of additional data.
const MOST_TEXT: usize = 68719476704;

const MOST_DATA: usize = 2305843009213693951;

// The tag of a ciphertext and its additional data.
fn make_tag(
    tables: &[u32; TABLE_WORDS],
    schedule: &[u32; SCHEDULE_WORDS],
    nonce: &[u8],
    a: &[u8],
    c: &[u8],
) -> Pair
    requires tables_value { (tables.now ≡ encipher_tables) × Expanded schedule.now }
    requires nonce_len { (length nonce.now ≡ nonce_octets) × (length a.now ≤ most_data) × (length c.now ≤ most_text) }
    ensures { (key : List ℕ) → Expands key schedule.now →
        pair_number result ≡ number 16 (tag key nonce.now a.now c.now) }
{
    let w = make_subkey(tables, schedule);
    let s = hash_all(&w, a, c);
    let m = encipher_counter(tables, schedule, nonce, 1);
    Pair {
        hi: s.hi ^ m.hi,
        lo: s.lo ^ m.lo,
    }
}

// Whether two blocks are one, over all their octets, with no early end.
fn is_same(x: Pair, y: Pair) -> bool
    ensures { result ≡ eqb (pair_number x) (pair_number y) }
{
    ((x.hi ^ y.hi) | (x.lo ^ y.lo)) == 0
}

// Verifies the tag behind a ciphertext: answers whether the octets open at all.
pub fn verify_tag(
    tables: &[u32; TABLE_WORDS],
    schedule: &[u32; SCHEDULE_WORDS],
    nonce: &[u8],
    a: &[u8],
    octets: &[u8],
) -> bool
    requires tables_value { (tables.now ≡ encipher_tables) × Expanded schedule.now }
    requires nonce_len { (length nonce.now ≡ nonce_octets) × (length a.now ≤ most_data) }
    requires tag_octets_in_bounds { (tag_octets ≤ length octets.now) × (length octets.now ≤ most_text + tag_octets) }
    ensures { (key : List ℕ) → Expands key schedule.now →
        UnsealJudged key nonce.now a.now octets.now result }
{
    let n = octets.len() - TAG_OCTETS;
    let made = make_tag(tables, schedule, nonce, a, &octets[0..n]);
    let given = block_at(octets, n);
    is_same(made, given)
}

// GCM-AD: opens octets that are a ciphertext and its tag, at the room's start. The tag is verified before anything is written.
pub fn open(key: &[u8], nonce: &[u8], a: &[u8], octets: &[u8], room: &mut [u8]) -> bool
    ensures { UnsealAnswers key.now nonce.now a.now octets.now room.old result
        room.new }
{
    if octets.len() < TAG_OCTETS {
        return false;
    }
    let n = octets.len() - TAG_OCTETS;
    if room.len() < n {
        return false;
    }
    if MOST_TEXT < n {
        return false;
    }
    if MOST_DATA < a.len() {
        return false;
    }
    if nonce.len() != NONCE_OCTETS {
        return false;
    }
    if !aes::is_key(key.len()) {
        return false;
    }
    let tables = aes::tables();
    let schedule = aes::expand(&tables, key);
    if !verify_tag(&tables, &schedule.words, nonce, a, octets) {
        return false;
    }
    gctr_in(&tables, &schedule.words, nonce, &octets[0..n], room);
    true
}
