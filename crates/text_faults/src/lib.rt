// Says why a layout breaks, for the program `show`: the structure at the offset of the break, and a phrase. Each function writes its text
// to a writer, and is an error where that cannot take it.
// Internal: crates of this repository alone call it.
#![tactic(auto)]

use crate::places::{be16_or_0, be32_or_0, octet, part};
use ikev2_numbers::{
    ATTRIBUTE_HEAD, DATA_SPI, DELETE_COUNT_AT, DELETE_HEAD, ESP, FIRST_PAYLOAD_AT, HEADER,
    LENGTH_AT, MINOR_VERSIONS, MOST_OCTETS, NO_PAYLOAD, NO_PROTOCOL, PAYLOAD_HEADER, POLICY_HEAD,
    STRUCTURE_LENGTH_AT, TRANSFORM_HEAD, VERSION_AT,
};
use std::convert::AsSlice;
use std::fmt;
use std::fmt::Write;
use wire_attributes::tables::{Meaning, Place};

pub mod places;

// Puts the start of the line: the `offset` of the break, and the structure `what`.
fn breaks(w: &mut impl Write, offset: usize, what: impl AsSlice<u8> + Drop) -> fmt::Result {
    write!(w, "  1: breaks at offset {offset}, ")?;
    put_octets(w, what.as_slice())
}

// Puts octets that are text as they stand, and others one by one as the characters with their numbers, since a writer takes text alone.
fn put_octets(w: &mut impl Write, octets: &[u8]) -> fmt::Result {
    if let Ok(text) = str::from_utf8(octets) {
        return w.write_str(text);
    }
    for octet in octets {
        w.write_char(char::from(*octet))?;
    }
    Ok(())
}

// Says that `count` octets are missing.
fn short(w: &mut impl Write, count: usize) -> fmt::Result {
    writeln!(w, "ends {count} octets short")
}

// Says what is wrong with the length field (octets 2 and 3) of `s`: it is missing, under `least` or over `s.len()`.
fn of_size(w: &mut impl Write, s: &[u8], least: usize) -> fmt::Result {
    if s.len() < 4 {
        return short(w, least.saturating_sub(s.len()));
    }
    let length = be16_or_0(s, STRUCTURE_LENGTH_AT);
    if length < least {
        return writeln!(w, "length {length}, at least {least}");
    }
    short(w, length.saturating_sub(s.len()))
}

// Says why the header of the frame `s` breaks: by the size of the frame, the length field or the major version.
pub fn of_header(w: &mut impl Write, s: &[u8]) -> fmt::Result {
    breaks(w, 0, "header: ")?;
    let size = s.len();
    if size < HEADER {
        return writeln!(w, "{size} octets, at least {HEADER}");
    }
    if MOST_OCTETS < size {
        return writeln!(w, "{size} octets, at most {MOST_OCTETS}");
    }
    of_length(w, s)
}

fn of_length(w: &mut impl Write, s: &[u8]) -> fmt::Result {
    let length = be32_or_0(s, LENGTH_AT);
    if length == s.len() {
        return writeln!(
            w,
            "major version {}, must be 2",
            octet(s, VERSION_AT) / MINOR_VERSIONS
        );
    }
    writeln!(w, "length {length}, octets {}", s.len())
}

// Where the chain of payloads ends: the offset `at`, and the type `kind` of the payload that is due there.
#[derive(Drop)]
struct End {
    at: usize,
    kind: usize,
}

// Follows the payloads of the frame `s` to the end of their chain.
fn chain_end(s: &[u8]) -> End {
    let mut kind = octet(s, FIRST_PAYLOAD_AT);
    let mut at = HEADER;
    while at < s.len() {
        if kind == NO_PAYLOAD {
            return End { at, kind };
        }
        kind = octet(s, at);
        at = crate::places::end_at(s, at, s.len(), PAYLOAD_HEADER);
    }
    End { at, kind }
}

// Says why the payloads do not end with the frame `s`: octets are left behind the last one, or none is left for the next.
pub fn of_chain(w: &mut impl Write, s: &[u8]) -> fmt::Result {
    breaks(w, 0, "header: ")?;
    let e = chain_end(s);
    if e.kind == NO_PAYLOAD {
        return writeln!(
            w,
            "next payload 0, {} octets left",
            s.len().saturating_sub(e.at)
        );
    }
    writeln!(w, "next payload {}, no octet left", e.kind)
}

// Says why the payload `s` of type `kind` breaks at `offset`: by its length field or, for D, by its body. A fault in the body of D counts
// for the payload.
pub fn of_payload(w: &mut impl Write, kind: usize, s: &[u8], offset: usize) -> fmt::Result {
    breaks(w, offset, "payload ")?;
    write!(w, "{} ({kind}): ", text_names::tables::payload(kind))?;
    if octets::numbers::is_sized(s, PAYLOAD_HEADER) {
        return of_delete(w, part(s, PAYLOAD_HEADER, s.len()));
    }
    of_size(w, s, PAYLOAD_HEADER)
}

// Says what is wrong with `s`, the body of D.
fn of_delete(w: &mut impl Write, s: &[u8]) -> fmt::Result {
    if s.len() < DELETE_HEAD {
        return writeln!(w, "body of {} octets, at least {DELETE_HEAD}", s.len());
    }
    let protocol = octet(s, 0);
    let size = octet(s, 1);
    if protocol == ESP && size != DATA_SPI {
        return of_spi_size(w, protocol, size);
    }
    let (count, octets) = (be16_or_0(s, DELETE_COUNT_AT), s.len() - DELETE_HEAD);
    writeln!(
        w,
        "SPI size {size}, count {count}, but {octets} octets of SPIs"
    )
}

// Says that `size` is not the SPI size of `protocol`.
fn of_spi_size(w: &mut impl Write, protocol: usize, size: usize) -> fmt::Result {
    let name = text_names::tables::protocol(protocol);
    let own = wire_policies::spi_size(protocol);
    writeln!(w, "SPI size {size}, {name} has {own}")
}

// Says why the policy or key bag `s` breaks at `offset`: by its first octet, its SPI size or its length field. `what` names the structure.
pub fn of_head(
    w: &mut impl Write,
    what: impl AsSlice<u8> + Drop,
    s: &[u8],
    offset: usize,
) -> fmt::Result {
    breaks(w, offset, what)?;
    let first = octet(s, 0);
    if first == NO_PROTOCOL || s.len() < POLICY_HEAD {
        return of_size(w, s, POLICY_HEAD);
    }
    of_protocol(w, first, s)
}

fn of_protocol(w: &mut impl Write, first: usize, s: &[u8]) -> fmt::Result {
    let size = wire_policies::spi_size(first);
    if size == 0 {
        return writeln!(w, "first octet {first}, must be 0, 2, 3 or 6");
    }
    if octet(s, 1) == size {
        return of_size(w, s, POLICY_HEAD + size);
    }
    of_spi_size(w, first, octet(s, 1))
}

// Says that `what` is missing at a policy's end. It counts for the policy, which starts at `offset`.
pub fn of_missing(w: &mut impl Write, what: impl AsSlice<u8> + Drop, offset: usize) -> fmt::Result {
    breaks(w, offset, "policy: ")?;
    w.write_str("no ")?;
    put_octets(w, what.as_slice())?;
    writeln!(w)
}

// Says why the selector `s` breaks at `offset`.
pub fn of_selector(w: &mut impl Write, s: &[u8], offset: usize) -> fmt::Result {
    breaks(w, offset, "selector: ")?;
    let kind = octet(s, 0);
    let size = wire_policies::selectors::selector_size(kind);
    if size == 0 {
        return writeln!(w, "type {kind}, must be 7 or 8");
    }
    if s.len() < size {
        return short(w, size.saturating_sub(s.len()));
    }
    writeln!(
        w,
        "length {}, type {kind} has {size}",
        be16_or_0(s, STRUCTURE_LENGTH_AT)
    )
}

// Says why the transform `s` breaks at `offset`: by its length field or its first octet.
pub fn of_transform(w: &mut impl Write, s: &[u8], offset: usize) -> fmt::Result {
    breaks(w, offset, "transform: ")?;
    if octets::numbers::is_sized(s, TRANSFORM_HEAD) {
        return writeln!(w, "first octet {}, must be 0 or 3", octet(s, 0));
    }
    of_size(w, s, TRANSFORM_HEAD)
}

// Says why the attribute at the start of `s` breaks at `offset`, by the `place` where it stands.
pub fn of_attribute(w: &mut impl Write, place: Place, s: &[u8], offset: usize) -> fmt::Result {
    breaks(w, offset, "attribute: ")?;
    match wire_attributes::read_attribute(s) {
        Some(a) => {
            write!(w, "{}", text_names::tables::attribute(place, a.kind))?;
            let meaning = wire_attributes::tables::meaning_in(place, a.kind);
            of_format(w, meaning, a.short, a.end.saturating_sub(a.start))
        }
        None => of_cut(w, place, s),
    }
}

// Says why an attribute is cut off at the end of `s`: octets are missing, or it is in long form where it must be in short form.
fn of_cut(w: &mut impl Write, place: Place, s: &[u8]) -> fmt::Result {
    if s.len() < ATTRIBUTE_HEAD {
        return short(w, ATTRIBUTE_HEAD.saturating_sub(s.len()));
    }
    let kind = be16_or_0(s, 0);
    if is_short_form(wire_attributes::tables::meaning_in(place, kind)) {
        write!(w, "{}", text_names::tables::attribute(place, kind))?;
        return in_long_form(w);
    }
    short(
        w,
        (ATTRIBUTE_HEAD + be16_or_0(s, 2)).saturating_sub(s.len()),
    )
}

// Whether an attribute with this `meaning` is read in the short form.
fn is_short_form(meaning: Meaning) -> bool {
    matches!(meaning, Meaning::KeyLength | Meaning::DeactivationDelay)
}

// Says why a whole attribute breaks: it is in the other form, or its value has a wrong `size`.
fn of_format(w: &mut impl Write, meaning: Meaning, short: bool, size: usize) -> fmt::Result {
    if short {
        return writeln!(w, " in short form");
    }
    match meaning {
        Meaning::InitialMessageId | Meaning::KeyLifetime => of_four(w, size),
        Meaning::SaKey | Meaning::WrapKey | Meaning::FreshKey => of_wrapped(w, size),
        Meaning::KeyLength | Meaning::DeactivationDelay => in_long_form(w),
        Meaning::Skipped => writeln!(w),
    }
}

// Says that a value of `size` octets must have 4.
fn of_four(w: &mut impl Write, size: usize) -> fmt::Result {
    writeln!(w, " of {size} octets, must be 4")
}

fn in_long_form(w: &mut impl Write) -> fmt::Result {
    writeln!(w, " in long form")
}

// Says why a value of `size` octets is no wrapped key: two IDs of 4 octets, and 16 to 264 wrapped octets.
fn of_wrapped(w: &mut impl Write, size: usize) -> fmt::Result {
    if size < 24 {
        return writeln!(w, " of {size} octets, at least 24");
    }
    if 272 < size {
        return writeln!(w, " of {size} octets, at most 272");
    }
    writeln!(w, " of {size} octets, no multiple of 8")
}
