// Retires the SAs that Delete payloads name.
ghost use Rattle.std.specs.Prelude.{◌≡◌, ◌≤◌, ◌<◌, true, List};
ghost use Rattle.rules_outcome.specs.After.{is_zero};
ghost use Rattle.state_keys.specs.Limits.{limits};
ghost use Rattle.wire_frames.specs.Delete.{Delete, delete_of, delete_fits};
ghost use Rattle.check_payloads.specs.inner.Deletion.{spis_in};
ghost use Rattle.apply.specs.inner.Tables.{named_in, retired_there, AreDeletes};

use check_payloads::deletion::{delete_parts, spi_at};
use ikev2_numbers::{DELETE, PAYLOAD_HEADER};
use state_keys::limits::SAS;
use state_sa::entry::{ESP, Sa};
use state_table::Table;
use wire_readers::payload::payload_parts;

// Whether all octets of `x` are 0.
fn is_zero(x: &[u8]) -> bool
    ensures { result ≡ is_zero x.now }
{
    x.iter().all(|o| *o == 0)
}

// Whether the Delete payload with the body `o` names the SA `a`. It can name ESP SAs only, and an SPI of zeros names all of them.
fn is_named(a: Sa, o: &[u8]) -> bool
    requires { delete_fits o.now ≡ true }
    ensures { result ≡ named_in (delete_of o.now).spis a }
{
    if a.protocol != ESP {
        return false;
    }
    for i in 0..delete_parts(o).count {
        let x = spi_at(o, i);
        if is_zero(x) || a.is_named(ESP, x) {
            return true;
        }
    }
    false
}

// Answers how many places of a table with this `count` hold SAs: none if the count is over the limit.
fn places(count: usize) -> usize
    ensures { (result ≤ limits.sas) × (limits.sas < count → result ≡ 0) × (count ≤ limits.sas → result ≡ count) }
{
    if SAS < count {
        return 0;
    }
    count
}

// Retires the ESP SAs that the Delete payload with the body `o` names, in one pass over the table `t`. A table with a count over the limit
// stays as it is. There is one return, because a second one takes stack for a table more.
fn retire_spis(t: Table, o: &[u8], tick: u32, delay: u16) -> Table
    requires { delete_fits o.now ≡ true }
    ensures { result ≡ retired_there (named_in (delete_of o.now).spis) tick delay t }
{
    let count = t.count;
    let n = places(count);
    let mut sas = t.sas;
    for i in 0..n {
        let a = sas[i];
        if is_named(a, o) {
            sas[i] = a.retire(tick, delay);
        }
    }
    Table { sas, count }
}

// How many Delete payloads a frame has, and where the first one starts.
#[derive(Clone, Copy)]
pub struct DeletesAt {
    pub count: usize,
    pub start: usize,
}

// Retires the ESP SAs that the Delete payloads of the frame `s` name. Reads from the first of these (`d.start`) to the last.
pub fn retired_by_frame(t: Table, s: &[u8], d: DeletesAt, tick: u32, delay: u16) -> Table
    requires { (l : List Delete) × AreDeletes s.now d l }
    ensures { (l : List Delete) → AreDeletes s.now d l → result ≡ retired_there (named_in (spis_in l)) tick delay t }
{
    let mut out = t;
    let mut left = d.count;
    let mut kind = DELETE;
    let mut at = d.start;
    while 0 < left {
        let p = payload_parts(kind, &s[at..]);
        let e = at + p.end;
        if kind == DELETE {
            out = retire_spis(out, &s[at + PAYLOAD_HEADER..e], tick, delay);
            left -= 1;
        }
        kind = p.next;
        at = e;
    }
    out
}
