// Shows attributes, by the place where they stand.
use crate::frame::Shown;
use crate::line::{INMOST, INNER, put_head};
use ikev2_numbers::{KEY_LENGTH, SA_KEY};
use std::fmt;
use std::fmt::Write;
use text_faults::places::{attribute_end, be16_or_0, be32_or_0};
use text_names::{Hex, tables};
use wire_attributes::tables::{Meaning, Place, meaning_in};

// Puts the attributes from `from` to `to`, up to the one that breaks the layout, and why it does.
pub(crate) fn put_attributes(
    w: &mut impl Write,
    place: Place,
    f: Shown,
    from: usize,
    to: usize,
) -> fmt::Result {
    let mut at = from;
    while at < to {
        let end = attribute_end(f.octets, at, to);
        if f.breaks_at(at) {
            return text_faults::of_attribute(w, place, f.part(at, to), at);
        }
        put_attribute_at(w, place, f.part(at, to), at)?;
        if f.breaks_within(at, end) {
            return Ok(());
        }
        at = end;
    }
    Ok(())
}

// Puts the attribute that `s` starts with. Its offset in the frame is `at`.
fn put_attribute_at(w: &mut impl Write, place: Place, s: &[u8], at: usize) -> fmt::Result {
    match wire_attributes::read_attribute(s) {
        Some(a) => put_attribute(
            w,
            place,
            at,
            a.end,
            a.kind,
            wire_attributes::attribute_value(s, 0),
        ),
        None => Ok(()),
    }
}

// Answers how far an attribute in `place` is set in.
fn indent(place: Place) -> usize {
    match place {
        Place::EncryptionTransform | Place::OtherTransform => INMOST,
        _ => INNER,
    }
}

// Puts an attribute: its name, what is shown of its value, and whether a member passes over it.
pub(crate) fn put_attribute(
    w: &mut impl Write,
    place: Place,
    at: usize,
    len: usize,
    kind: usize,
    value: &[u8],
) -> fmt::Result {
    put_head(w, indent(place), at, len)?;
    write!(w, "{} ({kind}): ", tables::attribute(place, kind))?;
    put_value(w, shape_of(place, kind), value)?;
    if matches!(meaning_in(place, kind), Meaning::Skipped) {
        return writeln!(w, ", skipped");
    }
    writeln!(w)
}

// What is shown of a value: a number of 2 or 4 octets, an SPI, the IDs of a wrapped key, or how many octets it has. Octets of keys, and
// octets without a name in the papers, are only counted.
#[derive(Clone, Copy)]
enum Shape {
    Number,
    Spi,
    Wrapped,
    Count,
}

// Answers what is shown of the attribute `kind` in `place`: in a transform Key Length, in a policy GSA_KEY_LIFETIME (1),
// GSA_INITIAL_MESSAGE_ID (2) and GSA_NEXT_SPI (3), in a group-wide policy GWP_ATD (1), GWP_DTD (2) and GWP_SENDER_ID_BITS (3), and in a key
// bag SA_KEY or WRAP_KEY (1 in their bags).
fn shape_of(place: Place, kind: usize) -> Shape {
    match (place, kind) {
        (Place::EncryptionTransform | Place::OtherTransform, KEY_LENGTH) => Shape::Number,
        (Place::RekeyPolicy | Place::DataPolicy, 1 | 2) => Shape::Number,
        (Place::RekeyPolicy | Place::DataPolicy, 3) => Shape::Spi,
        (Place::GroupWidePolicy, 1 | 2 | 3) => Shape::Number,
        (Place::RekeyBag | Place::FreshRekeyBag | Place::DataBag | Place::MemberBag, SA_KEY) => {
            Shape::Wrapped
        }
        _ => Shape::Count,
    }
}

// Puts what is shown of `value`. A number of another size than 2 or 4 octets, and an SPI of another size than 4 (AH, ESP) or 16 (a Rekey
// SA), are counted.
fn put_value(w: &mut impl Write, shape: Shape, value: &[u8]) -> fmt::Result {
    let n = value.len();
    match (shape, n) {
        (Shape::Number, 2) => write!(w, "{}", be16_or_0(value, 0)),
        (Shape::Number, 4) => write!(w, "{}", be32_or_0(value, 0)),
        (Shape::Spi, 4 | 16) => write!(w, "{}", Hex(value)),
        (Shape::Wrapped, _) => put_wrapped(w, value),
        _ => write!(w, "{n} octets"),
    }
}

fn put_wrapped(w: &mut impl Write, value: &[u8]) -> fmt::Result {
    let (id, kwk) = (be32_or_0(value, 0), be32_or_0(value, 4));
    write!(
        w,
        "Key ID {id}, KWK ID {kwk}, {} octets wrapped",
        value.len().saturating_sub(8)
    )
}
