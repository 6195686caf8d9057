// Shows key bags: of a wrapped key its Key ID, its KWK ID and how many octets are wrapped, and no octet of it.
use crate::attribute::put_attributes;
use crate::frame::Shown;
use crate::line::{MIDDLE, put_head, put_protocol_and_spi};
use ikev2_numbers::{NO_PROTOCOL, POLICY_HEAD};
use std::fmt;
use std::fmt::Write;
use text_faults::places::end_at;

// Puts the key bags of a KD payload's body from `from` to `to`, up to the one that breaks the layout.
pub(crate) fn put_bags(w: &mut impl Write, f: Shown, from: usize, to: usize) -> fmt::Result {
    let mut at = from;
    while at < to {
        let end = end_at(f.octets, at, to, POLICY_HEAD);
        put_bag(w, f, at, end)?;
        if f.breaks_within(at, end) {
            return Ok(());
        }
        at = end;
    }
    Ok(())
}

// Puts the key bag from `at` to `end`, or why it breaks.
fn put_bag(w: &mut impl Write, f: Shown, at: usize, end: usize) -> fmt::Result {
    if f.breaks_at(at) {
        return text_faults::of_head(w, "key bag: ", f.part(at, end), at);
    }
    let first = f.octet(at);
    let spi = at.saturating_add(POLICY_HEAD);
    let body = spi.saturating_add(wire_policies::spi_size(first));
    put_head(w, MIDDLE, at, end.saturating_sub(at))?;
    if first == NO_PROTOCOL {
        writeln!(w, "Member Key Bag")?;
    } else {
        put_protocol_and_spi(w, "Group Key Bag", first, f.part(spi, body))?;
    }
    put_attributes(w, wire_bags::place_of(false, first), f, body, end)
}
