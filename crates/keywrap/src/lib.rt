// RFC 5649: one key is wrapped or opened into lent room, or opened over a schedule that was expanded once.
// For customers: `wrap` and `open`. All else is internal.
#![tactic(auto)]

mod load;
mod sizes;
mod unwrap_steps;
mod verify;
mod wrap_steps;

ghost use Rattle.std.specs.Prelude.{◌≡◌, List, ℕ, suc, ◌≤◌, ◌*◌, T, length};
ghost use Rattle.fips197.specs.Key.{is_key};
ghost use Rattle.aes.specs.inner.Tables.{decipher_tables};
ghost use Rattle.aes.specs.inner.Schedule.{ExpandsInverse, ExpandedInverse};
ghost use Rattle.rfc5649.specs.Wrap.{wrap_of};
ghost use Rattle.keywrap.specs.Answers.{written, WrapAnswers, OpenAnswers};
ghost use Rattle.keywrap.specs.inner.Blank.{OpensBlank};
ghost use Rattle.rfc5649.specs.inner.Unwrap.{Unwraps};
ghost use Rattle.keywrap.specs.inner.Room.{put_answer, put_room};

use aes::{INVERSE_TABLE_WORDS, InverseSchedule, SCHEDULE_WORDS};
use sizes::{LEAST_WRAPPED, MOST_OCTETS, MOST_WRAPPED, REGISTERS};

// What `open_under` opened: the octets with zeros behind them, and how many they are.
// Kept as an array with its count, since memory is fixed.
#[derive(Clone, Copy)]
pub struct Opened {
    pub octets: [u8; MOST_OCTETS],
    pub count: usize,
}

// Wraps `octets` under `key` and writes the result at the start of `room`.
fn write_wrapped(key: &[u8], octets: &[u8], room: &mut [u8])
    requires t { T (is_key (length key.now)) }
    requires in_bounds { (1 ≤ length octets.now) × (length octets.now ≤ 256) }
    requires octets_in_bounds { length (wrap_of key.now octets.now) ≤ length room.old }
    ensures { room.new ≡ written (wrap_of key.now octets.now) room.old }
{
    let end = (octets.len() + 7) / 8 + 1;
    let mut s = load::start_registers(octets);
    let tables = aes::tables();
    let schedule = aes::expand(&tables, key);
    wrap_steps::forward_in(&tables, &schedule.words, &mut s[..end], end - 1);
    load::store(&s[..end], room);
}

// Wraps `octets` (1 to 256) under `key` (16, 24 or 32 octets) and writes the result at the start of `room`. Answers how many octets it wrote.
// On other sizes, or too little room, it answers `None`, document 01's "no", and leaves `room` as lent.
pub fn wrap(key: &[u8], octets: &[u8], room: &mut [u8]) -> Option<usize>
    ensures { WrapAnswers key.now octets.now room.old result room.new }
{
    let m = octets.len();
    if m == 0 || MOST_OCTETS < m {
        return None;
    }
    let n = 8 * ((m + 7) / 8 + 1);
    if room.len() < n {
        return None;
    }
    if !aes::is_key(key.len()) {
        return None;
    }
    write_wrapped(key, octets, room);
    Some(n)
}

// Undoes the steps of wrapping on the registers of `wrapped`, which has `n` blocks behind A. Answers A, R[1], .., R[n], and zeros behind.
fn unwrap_registers(
    tables: &[u32; INVERSE_TABLE_WORDS],
    schedule: &[u32; SCHEDULE_WORDS],
    wrapped: &[u8],
    n: usize,
) -> [u64; REGISTERS]
    requires tables_value { (tables.now ≡ decipher_tables) × ExpandedInverse schedule.now }
    requires le_n { (1 ≤ n) × (n ≤ 32) × (length wrapped.now ≡ 8 * suc n) }
    ensures { (key : List ℕ) → ExpandsInverse key schedule.now → Unwraps key n wrapped.now result }
{
    let end = n + 1;
    let mut s = [0u64; REGISTERS];
    load::load(wrapped, &mut s[..end]);
    unwrap_steps::backward_in(tables, schedule, &mut s[..end], n);
    s
}

// Opens `wrapped` under the key of `schedule`, which was expanded once, into blank room.
pub fn open_under(
    tables: &[u32; INVERSE_TABLE_WORDS],
    schedule: InverseSchedule,
    wrapped: &[u8],
) -> Option<Opened>
    requires { (tables.now ≡ decipher_tables) × ExpandedInverse schedule.words }
    ensures { (k : List ℕ) → ExpandsInverse k schedule.words → OpensBlank k wrapped.now result }
{
    let size = wrapped.len();
    if size < LEAST_WRAPPED || MOST_WRAPPED < size || size % 8 != 0 {
        return None;
    }
    let n = size / 8 - 1;
    verify::check_registers(unwrap_registers(tables, &schedule.words, wrapped, n), n)
}

// Writes `octets` at the start of `room`. Where they do not fit, it answers `None` and leaves `room` as lent.
fn put(octets: &[u8], room: &mut [u8]) -> Option<usize>
    ensures value { result ≡ put_answer octets.now room.old }
    ensures room_after { room.new ≡ put_room octets.now room.old }
{
    if octets.len() <= room.len() {
        return Some(octets::copying::copy(octets, room));
    }
    None
}

// Opens `wrapped` under `key` (16, 24 or 32 octets) and writes the result at the start of `room`. Answers how many octets it wrote. On other
// sizes, a failed check or too little room, it answers `None`, document 01's "no", and leaves `room` as lent.
pub fn open(key: &[u8], wrapped: &[u8], room: &mut [u8]) -> Option<usize>
    ensures { OpenAnswers key.now wrapped.now room.old result room.new }
{
    if !aes::is_key(key.len()) {
        return None;
    }
    let tables = aes::inverse_tables();
    let opened = open_under(&tables, aes::expand_inverse(&tables, key), wrapped)?;
    let n = opened.count;
    put(&opened.octets[..n], room)
}
