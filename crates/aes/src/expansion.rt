// KEYEXPANSION() word by word (FIPS 197, section 5.2), and its form for the equivalent inverse cipher (section 5.3.5). `t` holds the lent
// tables; the S-box stands in them from index `at` on.
ghost use Rattle.std.specs.Prelude.{◌≡◌, List, ℕ, ◌<◌, ◌≤◌, ◌+◌, ◌*◌, ◌/◌, ◌-◌, T, length};
ghost use Rattle.fips197.specs.Key.{is_key};
ghost use Rattle.fips197.specs.Field.{xtimes};
ghost use Rattle.fips197.specs.Sbox.{sbox};
ghost use Rattle.fips197.specs.Expansion.{word, temp};
ghost use Rattle.aes.specs.inner.Word.{word_octets};
ghost use Rattle.aes.specs.inner.Tables.{Boxed, decipher_tables};
ghost use Rattle.aes.specs.inner.Schedule.{Expands, ExpandsInverse};
ghost use Rattle.aes.specs.inner.Expanding.{ExpandedTo, Placed};
ghost use Rattle.aes.specs.inner.Inverse.{unmixed_of, inverse_word_of};

use crate::SCHEDULE_WORDS;
use crate::words::{column, join, last_column};

// Computes XTIMES(`x`).
fn times2(x: u8) -> u8
    ensures { result ≡ xtimes x }
{
    (x << 1) ^ (27 * (x >> 7))
}

// The place of word i in the expansion: `word` is i mod Nk, and `constant` is the first octet of Rcon[i / Nk].
#[derive(Clone, Copy)]
pub(crate) struct WordPlace {
    pub word: usize,
    pub constant: u8,
}

// Answers the place of the next word after `p`, for a key of `nk` words.
fn next_place(p: WordPlace, nk: usize) -> WordPlace
    requires { p.word < nk }
    ensures { (i : ℕ) → nk ≤ i → Placed nk i p → Placed nk (i + 1) result }
{
    let word = p.word + 1;
    if word < nk {
        return WordPlace {
            word,
            constant: p.constant,
        };
    }
    WordPlace {
        word: 0,
        constant: times2(p.constant),
    }
}

// Computes temp for the word at place `p` from the word `x` before it, for a key of `nk` words.
fn temp_at(t: &[u32], at: usize, nk: usize, p: WordPlace, x: u32) -> u32
    requires { (at + 256 ≤ length t.now) × Boxed sbox t.now at }
    ensures { (w : List ℕ) (i : ℕ) → Placed nk i p → word_octets x ≡ word w (i - 1) → word_octets result ≡ temp nk w i }
{
    if p.word == 0 {
        let y = x.rotate_right(24);
        return last_column(t, at, y, y, y, y, join(p.constant, 0, 0, 0));
    }
    if 6 < nk && p.word == 4 {
        return last_column(t, at, x, x, x, x, 0);
    }
    x
}

// Loads the words of `key`, with zeros behind them.
fn key_words(key: &[u8]) -> [u32; SCHEDULE_WORDS]
    requires { T (is_key (length key.now)) }
    ensures { ExpandedTo key.now result (length key.now / 4) }
{
    let nk = key.len() / 4;
    let mut w = [0u32; SCHEDULE_WORDS];
    for j in 0..nk {
        w[j] = join(key[4 * j], key[4 * j + 1], key[4 * j + 2], key[4 * j + 3]);
    }
    w
}

// Expands `key` to the words of its round keys, with the number of rounds at index 60.
pub fn expand_words(t: &[u32], at: usize, key: &[u8]) -> [u32; SCHEDULE_WORDS]
    requires at_in_bounds { (at + 256 ≤ length t.now) × Boxed sbox t.now at }
    requires t { T (is_key (length key.now)) }
    ensures { Expands key.now result }
{
    let nk = key.len() / 4;
    let mut w = key_words(key);
    let mut p = WordPlace {
        word: 0,
        constant: 1,
    };
    for i in nk..4 * (nk + 7) {
        w[i] = w[i - nk] ^ temp_at(t, at, nk, p, w[i - 1]);
        p = next_place(p, nk);
    }
    w[60] = (nk + 6) as u32;
    w
}

// Applies INVMIXCOLUMNS() to the word `x`. The combined table gives INVMIXCOLUMNS() of INVSBOX(), so SBOX() is applied first.
fn unmix(t: &[u32], x: u32) -> u32
    requires { 768 ≤ length t.now }
    ensures { result ≡ unmixed_of t.now x }
{
    let y = last_column(t, 512, x, x, x, x, 0);
    column(t, y, y, y, y, 0)
}

// Computes word `j` of the inverse schedule of `n` rounds from the words `w` of the expanded key.
fn inverse_word(t: &[u32], w: &[u32; SCHEDULE_WORDS], n: usize, j: usize) -> u32
    requires { (768 ≤ length t.now) × (n < 15) × (j < 4 * (n + 1)) }
    ensures { result ≡ inverse_word_of t.now w.now n j }
{
    let x = w[4 * (n - j / 4) + (4 - j % 4) % 4];
    if j < 4 {
        return x;
    }
    if j < 4 * n {
        return unmix(t, x);
    }
    x
}

// Expands `key` to the words of the round keys of the equivalent inverse cipher, with the number of rounds at index 60.
pub fn expanded_inverse(t: &[u32], key: &[u8]) -> [u32; SCHEDULE_WORDS]
    requires t_value { t.now ≡ decipher_tables }
    requires t { T (is_key (length key.now)) }
    ensures { ExpandsInverse key.now result }
{
    let w = expand_words(t, 512, key);
    let n = key.len() / 4 + 6;
    let mut k = [0u32; SCHEDULE_WORDS];
    for j in 0..4 * (n + 1) {
        k[j] = inverse_word(t, &w, n, j);
    }
    k[60] = n as u32;
    k
}
