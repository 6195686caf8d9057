// The steps of RFC 3394, section 2.2.1, in place, over the registers A, R[1], .., R[n].
ghost use Rattle.std.specs.Prelude.{◌≡◌, List, ℕ, ◌+◌, ◌*◌, ◌<◌, ◌≤◌, length};
ghost use Rattle.aes.specs.inner.Tables.{encipher_tables};
ghost use Rattle.aes.specs.inner.Schedule.{Expands, Expanded};
ghost use Rattle.rfc5649.specs.Steps.{step, row, rows};
ghost use Rattle.rfc5649.specs.inner.Unwrap.{forward};

use aes::{SCHEDULE_WORDS, TABLE_WORDS};

// Does step `t`, on A and R[`i`].
fn step_in(
    tables: &[u32; TABLE_WORDS],
    schedule: &[u32; SCHEDULE_WORDS],
    s: &mut [u64],
    t: u64,
    i: usize,
)
    requires tables_value { (tables.now ≡ encipher_tables) × Expanded schedule.now }
    requires i_nonzero { (0 < i) × (i < length s.old) }
    ensures { (key : List ℕ) → Expands key schedule.now → s.new ≡ step key t i s.old }
{
    let b = aes::encrypt_pair(tables, schedule, s[0], s[i]);
    s[0] = b.hi ^ t;
    s[i] = b.lo;
}

// Does the `n` steps of round j, from R[1] to R[n]; `base` is n * j.
fn row_in(
    tables: &[u32; TABLE_WORDS],
    schedule: &[u32; SCHEDULE_WORDS],
    s: &mut [u64],
    base: usize,
    n: usize,
)
    requires tables_value { (tables.now ≡ encipher_tables) × Expanded schedule.now }
    requires base_bound { (base ≤ 160) × (n ≤ 32) × (n < length s.old) }
    ensures { (key : List ℕ) → Expands key schedule.now → s.new ≡ row key base n s.old }
{
    for i in 0..n {
        step_in(tables, schedule, s, (base + i + 1) as u64, i + 1);
    }
}

// Does the six rounds of `n` steps each.
fn rows_in(tables: &[u32; TABLE_WORDS], schedule: &[u32; SCHEDULE_WORDS], s: &mut [u64], n: usize)
    requires tables_value { (tables.now ≡ encipher_tables) × Expanded schedule.now }
    requires n_bound { (n ≤ 32) × (n < length s.old) }
    ensures { (key : List ℕ) → Expands key schedule.now → s.new ≡ rows key n 6 s.old }
{
    for j in 0..6 {
        row_in(tables, schedule, s, n * j, n);
    }
}

// Wraps the registers `s` of `n` blocks (RFC 5649, section 4.1, step 2).
pub(crate) fn forward_in(
    tables: &[u32; TABLE_WORDS],
    schedule: &[u32; SCHEDULE_WORDS],
    s: &mut [u64],
    n: usize,
)
    requires tables_value { (tables.now ≡ encipher_tables) × Expanded schedule.now }
    requires le_n { (1 ≤ n) × (n ≤ 32) × (n < length s.old) }
    ensures { (key : List ℕ) → Expands key schedule.now → s.new ≡ forward key n s.old }
{
    if n == 1 {
        step_in(tables, schedule, s, 0, 1);
        return;
    }
    rows_in(tables, schedule, s, n);
}
