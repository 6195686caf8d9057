// Puts the text of the whole member: its SAs and held keys, each on a line, and the least Message ID.
use crate::text::part;
use gikev2::Member;
use state::held::HeldKey;
use state::least::Least;
use state_keys::kinds::{RekeyKey, WrappingKey};
use state_keys::limits::{HELD_KEYS, SAS};
use state_sa::entry::{Condition, ESP, Lifetime, Sa};
use std::fmt;
use std::fmt::Write;
use text_names::Hex;

// The most characters of a number.
const NUMBER: usize = 20;

// The most characters of the words and blanks of a line, with its newline.
const WORDS: usize = 32;

// The octets of an ESP SA's SPI, and the most of any.
const DATA_SPI: usize = 4;

const SPI: usize = 16;

// The most characters of an SA's line, which has seven numbers at most.
const SA_LINE: usize = WORDS + 2 * SPI + 2 * RekeyKey::MOST + 7 * NUMBER;

// The most characters of a held key's line.
const HELD_LINE: usize = WORDS + 2 * WrappingKey::KW_256 + NUMBER;

// The most characters of the line with the least Message ID.
const LEAST_LINE: usize = WORDS + NUMBER;

// The most characters of a whole member.
pub(crate) const MOST: usize = SAS * SA_LINE + HELD_KEYS * HELD_LINE + LEAST_LINE;

// Puts the condition and the lifetime of an SA, a blank before each.
pub(crate) fn put_times(w: &mut impl Write, c: Condition, l: Lifetime) -> fmt::Result {
    match c {
        Condition::Live => write!(w, " live")?,
        Condition::Retiring { start, delay } => write!(w, " retiring {start} {delay}")?,
    }
    match l {
        Lifetime::Unlimited => write!(w, " life none"),
        Lifetime::Limited { start, seconds } => write!(w, " life {start} {seconds}"),
    }
}

// Puts an SA: its name, its keying octets with the counts of their two parts, its condition and its lifetime.
fn put_sa(w: &mut impl Write, s: &Sa) -> fmt::Result {
    let protocol = s.protocol;
    let size = if protocol == ESP { DATA_SPI } else { SPI };
    write!(w, "sa {protocol} {}", Hex(part(&s.spi, 0, size)))?;
    write!(w, " {}", Hex(part(&s.octets, 0, s.count)))?;
    write!(w, " {} {}", s.encryption, s.wrapping)?;
    put_times(w, s.condition, s.lifetime)?;
    writeln!(w)
}

fn put_held_key(w: &mut impl Write, k: &HeldKey) -> fmt::Result {
    writeln!(
        w,
        "held {} {}",
        k.id,
        Hex(part(&k.key.octets, 0, k.key.count))
    )
}

// Puts the whole member `m`. The count of a broken list may be more than the list holds.
pub(crate) fn put_member(w: &mut impl Write, m: &Member) -> fmt::Result {
    let state = &m.state;
    for s in state.table.sas.iter().take(state.table.count) {
        put_sa(w, s)?;
    }
    for k in state.held.keys.iter().take(state.held.count) {
        put_held_key(w, k)?;
    }
    match state.least {
        Least::Id(n) => writeln!(w, "least {n}"),
        Least::NoneAnyMore => writeln!(w, "least none"),
    }
}
