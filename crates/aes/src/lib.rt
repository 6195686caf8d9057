// AES (FIPS 197). A caller makes the tables once and lends them, expands a key once, and lends its schedule for each block. Callers treat
// tables and schedules as opaque: no code outside this crate looks into their arrays.
// Internal: crates of this repository alone call it.
#![tactic(auto)]

ghost use Rattle.std.specs.Prelude.{◌≡◌, ℕ, ◌<◌, ◌+◌, ◌*◌, List, ◌++◌, T, length};
ghost use Rattle.octets.specs.Numbers.{octets_of};
ghost use Rattle.fips197.specs.Key.{is_key, rounds_of};
ghost use Rattle.fips197.specs.Expansion.{key_expansion, word};
ghost use Rattle.fips197.specs.Cipher.{cipher, inv_cipher};
ghost use Rattle.aes.specs.inner.Tables.{encipher_tables, decipher_tables};
ghost use Rattle.aes.specs.inner.Rounds.{state_octets, round_key_of, swapped_of};
ghost use Rattle.aes.specs.inner.Schedule.{Expands, ExpandsInverse, Expanded, ExpandedInverse};

mod expansion;
mod lookup;
mod rounds;
mod words;

use expansion::{expand_words, expanded_inverse};
use lookup::{decipher_tables, encipher_tables};
use rounds::{load, reverse_columns, run, split, store, unite};
use words::apart;

// The octets of the keys of AES-128, AES-192 and AES-256.
const KEY_128: usize = 16;

const KEY_192: usize = 24;

const KEY_256: usize = 32;

// The words of the tables for enciphering: a combined table and the substitution box.
pub const TABLE_WORDS: usize = 512;

// The words of the tables for deciphering: the inverse combined table, the inverse substitution box, and the substitution box for the key
// expansion.
pub const INVERSE_TABLE_WORDS: usize = 768;

// The words of a schedule: those of the expanded key, at most 60, and the number of rounds.
pub const SCHEDULE_WORDS: usize = 61;

// The state: a word for each column, the first octet highest.
#[derive(Clone, Copy)]
pub struct AesState {
    pub a: u32,
    pub b: u32,
    pub c: u32,
    pub d: u32,
}

// A block as two numbers of 64 bits, the first octet highest.
#[derive(Clone, Copy)]
pub struct Pair {
    pub hi: u64,
    pub lo: u64,
}

// The schedule for `encrypt`: the words of the round keys, zeros behind them, and the number of rounds at index 60.
#[derive(Clone, Copy)]
pub struct Schedule {
    pub words: [u32; SCHEDULE_WORDS],
}

// The schedule for `decrypt`: the same with the round keys of the equivalent inverse cipher. A type of its own, since a schedule of one kind
// in the place of the other would be another key.
#[derive(Clone, Copy)]
pub struct InverseSchedule {
    pub words: [u32; SCHEDULE_WORDS],
}

// Whether a key can have `count` octets.
#[tactic(auto, unfolding(fips197::specs::Key::is_key))]
pub fn is_key(count: usize) -> bool
    ensures { result ≡ is_key count }
{
    count == KEY_128 || count == KEY_192 || count == KEY_256
}

// Makes the tables for `expand`, `encrypt` and `encrypt_pair`. A caller makes them once and lends them, since the language has no static
// data.
pub fn tables() -> [u32; TABLE_WORDS]
    ensures { result ≡ encipher_tables }
{
    encipher_tables()
}

// Makes the tables for `expand_inverse`, `decrypt` and `decrypt_pair`.
pub fn inverse_tables() -> [u32; INVERSE_TABLE_WORDS]
    ensures { result ≡ decipher_tables }
{
    decipher_tables()
}

// Expands `key` by KEYEXPANSION().
pub fn expand(tables: &[u32; TABLE_WORDS], key: &[u8]) -> Schedule
    requires tables_value { tables.now ≡ encipher_tables }
    requires t { T (is_key (length key.now)) }
    ensures { Expands key.now result.words }
{
    let words = expand_words(tables, 256, key);
    Schedule { words }
}

// Expands `key` for the equivalent inverse cipher.
pub fn expand_inverse(tables: &[u32; INVERSE_TABLE_WORDS], key: &[u8]) -> InverseSchedule
    requires tables_value { tables.now ≡ decipher_tables }
    requires t { T (is_key (length key.now)) }
    ensures { ExpandsInverse key.now result.words }
{
    let words = expanded_inverse(tables, key);
    InverseSchedule { words }
}

// Enciphers `block` by CIPHER() under the key of `schedule`.
pub fn encrypt(
    tables: &[u32; TABLE_WORDS],
    schedule: &[u32; SCHEDULE_WORDS],
    block: [u8; 16],
) -> [u8; 16]
    requires tables_value { tables.now ≡ encipher_tables }
    requires expanded { Expanded schedule.now }
    ensures { (key : List ℕ) → Expands key schedule.now → result ≡ cipher key block }
{
    store(run(tables, schedule, load(block)))
}

// Enciphers the block with the halves `hi` and `lo` by CIPHER() under the key of `schedule`.
pub fn encrypt_pair(
    tables: &[u32; TABLE_WORDS],
    schedule: &[u32; SCHEDULE_WORDS],
    hi: u64,
    lo: u64,
) -> Pair
    requires tables_value { tables.now ≡ encipher_tables }
    requires expanded { Expanded schedule.now }
    ensures { (key : List ℕ) → Expands key schedule.now →
        octets_of 8 result.hi ++ octets_of 8 result.lo ≡ cipher key (octets_of 8 hi ++ octets_of 8 lo) }
{
    unite(run(tables, schedule, split(hi, lo)))
}

// Deciphers `block` by INVCIPHER() under the key of `schedule`.
pub fn decrypt(
    tables: &[u32; INVERSE_TABLE_WORDS],
    schedule: &[u32; SCHEDULE_WORDS],
    block: [u8; 16],
) -> [u8; 16]
    requires tables_value { tables.now ≡ decipher_tables }
    requires expanded_inverse { ExpandedInverse schedule.now }
    ensures { (key : List ℕ) → ExpandsInverse key schedule.now → result ≡ inv_cipher key block }
{
    store(reverse_columns(run(tables, schedule, reverse_columns(load(block)))))
}

// Deciphers the block with the halves `hi` and `lo` by INVCIPHER() under the key of `schedule`.
pub fn decrypt_pair(
    tables: &[u32; INVERSE_TABLE_WORDS],
    schedule: &[u32; SCHEDULE_WORDS],
    hi: u64,
    lo: u64,
) -> Pair
    requires tables_value { tables.now ≡ decipher_tables }
    requires expanded_inverse { ExpandedInverse schedule.now }
    ensures { (key : List ℕ) → ExpandsInverse key schedule.now →
        octets_of 8 result.hi ++ octets_of 8 result.lo ≡ inv_cipher key (octets_of 8 hi ++ octets_of 8 lo) }
{
    unite(reverse_columns(run(tables, schedule, reverse_columns(split(hi, lo)))))
}

// Reads the last word of the expanded key from `schedule`.
pub fn last_word(schedule: Schedule) -> [u8; 4]
    requires { Expanded schedule.words }
    ensures { (key : List ℕ) → Expands key schedule.words → result ≡ word (key_expansion key) (4 * rounds_of key + 3) }
{
    let w = schedule.words;
    let n = w[60] as usize;
    let at = 4 * n + 3;
    apart(w[at])
}

// Reads round key `r` of the equivalent inverse cipher from `schedule`. Its columns are put back in the order of a block.
pub fn inverse_round_key(schedule: &[u32; SCHEDULE_WORDS], r: usize) -> [u8; 16]
    requires { r < 15 }
    ensures { result ≡ state_octets (swapped_of (round_key_of schedule.now r)) }
{
    let at = 4 * r;
    store(AesState {
        a: schedule[at],
        b: schedule[at + 3],
        c: schedule[at + 2],
        d: schedule[at + 1],
    })
}
