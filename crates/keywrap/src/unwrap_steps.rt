// The steps of RFC 3394, section 2.2.2, in place, over the registers A, R[1], .., R[n].
ghost use Rattle.std.specs.Prelude.{◌≡◌, List, ℕ, ◌<◌, ◌≤◌, length};
ghost use Rattle.aes.specs.inner.Tables.{decipher_tables};
ghost use Rattle.aes.specs.inner.Schedule.{ExpandsInverse, ExpandedInverse};
ghost use Rattle.rfc5649.specs.inner.Unwrap.{unstep, unrow, unrows, backward};

use aes::{INVERSE_TABLE_WORDS, SCHEDULE_WORDS};

// Undoes step `t`, on A and R[`i`].
fn unstep_in(
    tables: &[u32; INVERSE_TABLE_WORDS],
    schedule: &[u32; SCHEDULE_WORDS],
    s: &mut [u64],
    t: u64,
    i: usize,
)
    requires tables_value { (tables.now ≡ decipher_tables) × ExpandedInverse schedule.now }
    requires i_nonzero { (0 < i) × (i < length s.old) }
    ensures { (key : List ℕ) → ExpandsInverse key schedule.now → s.new ≡ unstep key t i s.old }
{
    let b = aes::decrypt_pair(tables, schedule, s[0] ^ t, s[i]);
    s[0] = b.hi;
    s[i] = b.lo;
}

// Undoes the `n` steps of round j, from R[n] to R[1]; `base` is n * j.
fn unrow_in(
    tables: &[u32; INVERSE_TABLE_WORDS],
    schedule: &[u32; SCHEDULE_WORDS],
    s: &mut [u64],
    base: usize,
    n: usize,
)
    requires tables_value { (tables.now ≡ decipher_tables) × ExpandedInverse schedule.now }
    requires base_bound { (base ≤ 160) × (n ≤ 32) × (n < length s.old) }
    ensures { (key : List ℕ) → ExpandsInverse key schedule.now → s.new ≡ unrow key base n s.old }
{
    for i in (0..n).rev() {
        unstep_in(tables, schedule, s, (base + i + 1) as u64, i + 1);
    }
}

// Undoes the six rounds of `n` steps each, the last first.
fn unrows_in(
    tables: &[u32; INVERSE_TABLE_WORDS],
    schedule: &[u32; SCHEDULE_WORDS],
    s: &mut [u64],
    n: usize,
)
    requires tables_value { (tables.now ≡ decipher_tables) × ExpandedInverse schedule.now }
    requires n_bound { (n ≤ 32) × (n < length s.old) }
    ensures { (key : List ℕ) → ExpandsInverse key schedule.now → s.new ≡ unrows key n 6 s.old }
{
    for j in (0..6).rev() {
        unrow_in(tables, schedule, s, n * j, n);
    }
}

// Unwraps the registers `s` of `n` blocks (RFC 5649, section 4.2, step 1).
pub(crate) fn backward_in(
    tables: &[u32; INVERSE_TABLE_WORDS],
    schedule: &[u32; SCHEDULE_WORDS],
    s: &mut [u64],
    n: usize,
)
    requires tables_value { (tables.now ≡ decipher_tables) × ExpandedInverse schedule.now }
    requires le_n { (1 ≤ n) × (n ≤ 32) × (n < length s.old) }
    ensures { (key : List ℕ) → ExpandsInverse key schedule.now → s.new ≡ backward key n s.old }
{
    if n == 1 {
        unstep_in(tables, schedule, s, 0, 1);
        return;
    }
    unrows_in(tables, schedule, s, n);
}
