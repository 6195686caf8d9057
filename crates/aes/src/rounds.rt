// The rounds of the cipher on a state of four words. `t` holds the lent tables, `k` the words of a schedule.
ghost use Rattle.std.specs.Prelude.{◌≡◌, ◌<◌, ◌≤◌, length, get_or};
ghost use Rattle.aes.specs.inner.Rounds.{state_octets, load_of, split_of, unite_of, swapped_of, add_first_key, round_of, last_round_of, run_of};

use crate::words::{apart, column, join, last_column};
use crate::{AesState, Pair, SCHEDULE_WORDS};

// Loads the block `s` into a state.
pub(crate) fn load(s: [u8; 16]) -> AesState
    ensures { result ≡ load_of s }
{
    AesState {
        a: join(s[0], s[1], s[2], s[3]),
        b: join(s[4], s[5], s[6], s[7]),
        c: join(s[8], s[9], s[10], s[11]),
        d: join(s[12], s[13], s[14], s[15]),
    }
}

// Writes the state `s` as a block.
pub(crate) fn store(s: AesState) -> [u8; 16]
    ensures { result ≡ state_octets s }
{
    let a = apart(s.a);
    let b = apart(s.b);
    let c = apart(s.c);
    let d = apart(s.d);
    [
        a[0], a[1], a[2], a[3], b[0], b[1], b[2], b[3], c[0], c[1], c[2], c[3], d[0], d[1], d[2],
        d[3],
    ]
}

// Loads the block with the halves `hi` and `lo` into a state.
pub(crate) fn split(hi: u64, lo: u64) -> AesState
    ensures { result ≡ split_of hi lo }
{
    AesState {
        a: ((hi >> 32) % 4294967296) as u32,
        b: (hi % 4294967296) as u32,
        c: ((lo >> 32) % 4294967296) as u32,
        d: (lo % 4294967296) as u32,
    }
}

// Writes the state `s` as the two halves of a block.
pub(crate) fn unite(s: AesState) -> Pair
    ensures { result ≡ unite_of s }
{
    Pair {
        hi: (s.a as u64) * 4294967296 + (s.b as u64),
        lo: (s.c as u64) * 4294967296 + (s.d as u64),
    }
}

// Puts the columns in the order 0, 3, 2, 1. In this order the rounds of the cipher serve the inverse cipher.
pub(crate) fn reverse_columns(s: AesState) -> AesState
    ensures { result ≡ swapped_of s }
{
    AesState {
        a: s.a,
        b: s.d,
        c: s.c,
        d: s.b,
    }
}

// Adds round key 0 to the state `s`.
fn start(k: &[u32; SCHEDULE_WORDS], s: AesState) -> AesState
    ensures { result ≡ add_first_key k.now s }
{
    AesState {
        a: s.a ^ k[0],
        b: s.b ^ k[1],
        c: s.c ^ k[2],
        d: s.d ^ k[3],
    }
}

// Does round `r` on the state `s`, with the combined table at the start of `t`.
fn round(t: &[u32], k: &[u32; SCHEDULE_WORDS], r: usize, s: AesState) -> AesState
    requires { (512 ≤ length t.now) × (r < 15) }
    ensures { result ≡ round_of t.now k.now r s }
{
    let at = 4 * r;
    AesState {
        a: column(t, s.a, s.b, s.c, s.d, k[at]),
        b: column(t, s.b, s.c, s.d, s.a, k[at + 1]),
        c: column(t, s.c, s.d, s.a, s.b, k[at + 2]),
        d: column(t, s.d, s.a, s.b, s.c, k[at + 3]),
    }
}

// Does the last round, `r`, on the state `s`, with the substitution box in `t` from index 256 on.
fn last(t: &[u32], k: &[u32; SCHEDULE_WORDS], r: usize, s: AesState) -> AesState
    requires { (512 ≤ length t.now) × (r < 15) }
    ensures { result ≡ last_round_of t.now k.now r s }
{
    let at = 4 * r;
    AesState {
        a: last_column(t, 256, s.a, s.b, s.c, s.d, k[at]),
        b: last_column(t, 256, s.b, s.c, s.d, s.a, k[at + 1]),
        c: last_column(t, 256, s.c, s.d, s.a, s.b, k[at + 2]),
        d: last_column(t, 256, s.d, s.a, s.b, s.c, k[at + 3]),
    }
}

// Does all rounds on the state `s`, as many as word 60 of `k` says.
pub(crate) fn run(t: &[u32], k: &[u32; SCHEDULE_WORDS], s: AesState) -> AesState
    requires { (512 ≤ length t.now) × (1 ≤ get_or k.now 60 0) × (get_or k.now 60 0 < 15) }
    ensures { result ≡ run_of t.now k.now s }
{
    let n = k[60] as usize;
    let mut x = start(k, s);
    for r in 1..n {
        x = round(t, k, r, x);
    }
    last(t, k, n, x)
}
