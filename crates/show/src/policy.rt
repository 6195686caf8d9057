// Shows policies. A whole one is read by the view (`wire_view`), one in which the layout breaks by `partial`.
use crate::address::Address;
use crate::attribute::{put_attribute, put_attributes};
use crate::frame::Shown;
use crate::line::{INNER, MIDDLE, put_head, put_protocol_and_spi};
use crate::partial::put_partial;
use ikev2_numbers::{POLICY_HEAD, STRUCTURE_LENGTH_AT, TRANSFORM_HEAD};
use std::fmt;
use std::fmt::Write;
use text_faults::places::{be16_or_0, end_at, part};
use text_names::tables;
use wire_attributes::tables::{Place, in_policy, in_transform};
use wire_view::items::Item;
use wire_view::read::Kind;

// Puts the policies of a GSA payload's body from `from` to `to`, up to the one in which the layout breaks.
pub(crate) fn put_policies(w: &mut impl Write, f: Shown, from: usize, to: usize) -> fmt::Result {
    let mut at = from;
    while at < to {
        let end = end_at(f.octets, at, to, POLICY_HEAD);
        if f.breaks_within(at, end) {
            return put_partial(w, f, at, end);
        }
        put_head(w, MIDDLE, at, end.saturating_sub(at))?;
        put_whole(w, f, at, end)?;
        at = end;
    }
    Ok(())
}

// Puts the whole policy from `from` to `to`.
fn put_whole(w: &mut impl Write, f: Shown, from: usize, to: usize) -> fmt::Result {
    let p = f.part(from, to);
    match wire_view::shown_kind(p) {
        Some(Kind::GroupSa(protocol)) => {
            put_protocol_and_spi(w, "policy", protocol, wire_view::shown_spi(p))?;
            let head = POLICY_HEAD + wire_policies::spi_size(protocol);
            put_items(w, in_policy(protocol), f, from, to, head)
        }
        Some(Kind::GroupWide) => {
            writeln!(w, "group-wide policy")?;
            put_items(w, Place::GroupWidePolicy, f, from, to, POLICY_HEAD)
        }
        None => writeln!(w, "nothing to show"),
    }
}

// Puts what the view shows behind the `head` octets of the policy from `from` to `to`, one item after the other.
fn put_items(
    w: &mut impl Write,
    place: Place,
    f: Shown,
    from: usize,
    to: usize,
    head: usize,
) -> fmt::Result {
    let p = f.part(from, to);
    let mut at = from.saturating_add(head);
    let mut first = true;
    for item in wire_view::new(p) {
        at = match item {
            Item::Selector {
                protocol,
                start_port,
                end_port,
                start,
                end,
                ..
            } => {
                let next = from.saturating_add(end);
                put_selector_head(w, first, at, next)?;
                put_addresses(w, part(p, start, end))?;
                put_ports(w, protocol, start_port, end_port)?;
                next
            }
            Item::Transform { kind, id, .. } => {
                let length = be16_or_0(f.octets, at.saturating_add(STRUCTURE_LENGTH_AT));
                let next = at.saturating_add(length);
                put_transform(w, kind, id, f, at, next)?;
                next
            }
            Item::Attribute {
                kind,
                start,
                end,
                ..
            } => {
                let next = from.saturating_add(end);
                put_attribute(
                    w,
                    place,
                    at,
                    next.saturating_sub(at),
                    kind,
                    part(p, start, end),
                )?;
                next
            }
        };
        first = false;
    }
    Ok(())
}

// Puts the start of the line of the selector from `at` to `end`. The first selector is the source.
pub(crate) fn put_selector_head(
    w: &mut impl Write,
    first: bool,
    at: usize,
    end: usize,
) -> fmt::Result {
    put_head(w, INNER, at, end.saturating_sub(at))?;
    write!(w, "{} ", if first { "source" } else { "destination" })
}

// Puts the IP protocol and the ports of a selector.
pub(crate) fn put_ports(
    w: &mut impl Write,
    protocol: usize,
    start: usize,
    end: usize,
) -> fmt::Result {
    writeln!(w, ", IP protocol {protocol}, ports {start} to {end}")
}

// Puts the two addresses of a selector, which are the two halves of `octets`.
pub(crate) fn put_addresses(w: &mut impl Write, octets: &[u8]) -> fmt::Result {
    let half = octets.len() / 2;
    write!(
        w,
        "{} to {}",
        Address(&octets[..half]),
        Address(&octets[half..])
    )
}

// Puts the transform from `at` to `end`, and its attributes up to the one that breaks the layout.
pub(crate) fn put_transform(
    w: &mut impl Write,
    kind: usize,
    id: usize,
    f: Shown,
    at: usize,
    end: usize,
) -> fmt::Result {
    put_head(w, INNER, at, end.saturating_sub(at))?;
    write!(w, "transform {} ({kind}): ", tables::transform_type(kind))?;
    writeln!(w, "{} ({id})", tables::transform_id(kind, id))?;
    put_attributes(
        w,
        in_transform(kind),
        f,
        at.saturating_add(TRANSFORM_HEAD),
        end,
    )
}
