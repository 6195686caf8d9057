// Shows a policy in which the layout breaks, up to there. The view shows no such policy.
use crate::attribute::put_attributes;
use crate::frame::Shown;
use crate::line::{MIDDLE, put_head, put_protocol_and_spi};
use crate::policy::{put_addresses, put_ports, put_selector_head, put_transform};
use ikev2_numbers::{
    ADDRESSES_AT, END_PORT_AT, MORE_TRANSFORMS, NO_PROTOCOL, POLICY_HEAD, START_PORT_AT,
    TRANSFORM_HEAD, TRANSFORM_ID_AT, TRANSFORM_TYPE_AT,
};
use std::fmt;
use std::fmt::Write;
use text_faults::places::{be16_or_0, end_at, octet, part};
use wire_attributes::tables::{Place, in_policy};
use wire_policies::selectors::selector_size;

// Puts the policy from `at` to `end`, in which the layout breaks, up to there.
pub(crate) fn put_partial(w: &mut impl Write, f: Shown, at: usize, end: usize) -> fmt::Result {
    let p = f.part(at, end);
    if !wire_policies::head_fits(p) {
        return text_faults::of_head(w, "policy: ", p, f.stop.unwrap_or(at));
    }
    put_head(w, MIDDLE, at, end.saturating_sub(at))?;
    let first = f.octet(at);
    let spi = at.saturating_add(POLICY_HEAD);
    if first == NO_PROTOCOL {
        writeln!(w, "group-wide policy")?;
        return put_attributes(w, Place::GroupWidePolicy, f, spi, end);
    }
    let body = spi.saturating_add(wire_policies::spi_size(first));
    put_protocol_and_spi(w, "policy", first, f.part(spi, body))?;
    put_from_source(w, in_policy(first), f, body, end)
}

// Puts the policy from its source selector on, which is due at `at`.
fn put_from_source(
    w: &mut impl Write,
    place: Place,
    f: Shown,
    at: usize,
    to: usize,
) -> fmt::Result {
    match selector_end(f, at, to) {
        Some(end) => {
            put_selector(w, true, f, at, end)?;
            put_from_destination(w, place, f, end, to)
        }
        None => put_no_selector(w, "source selector", f, at, to),
    }
}

// Puts the policy from its destination selector on, which is due at `at`.
fn put_from_destination(
    w: &mut impl Write,
    place: Place,
    f: Shown,
    at: usize,
    to: usize,
) -> fmt::Result {
    match selector_end(f, at, to) {
        Some(end) => {
            put_selector(w, false, f, at, end)?;
            put_suite(w, place, f, end, to)
        }
        None => put_no_selector(w, "destination selector", f, at, to),
    }
}

// Answers where the selector ends that is due at `at`, if there is one and the layout does not break there.
fn selector_end(f: Shown, at: usize, to: usize) -> Option<usize> {
    if to <= at || f.breaks_at(at) {
        return None;
    }
    Some(at.saturating_add(selector_size(f.octet(at))))
}

// Says why no selector is shown that is due at `at`, in a policy that ends at `to`. `which` names it.
fn put_no_selector(w: &mut impl Write, which: &str, f: Shown, at: usize, to: usize) -> fmt::Result {
    let stop = f.stop.unwrap_or(at);
    if to <= at {
        return text_faults::of_missing(w, which, stop);
    }
    text_faults::of_selector(w, f.part(at, to), stop)
}

fn put_selector(w: &mut impl Write, first: bool, f: Shown, at: usize, end: usize) -> fmt::Result {
    let p = f.part(at, end);
    put_selector_head(w, first, at, end)?;
    put_addresses(w, part(p, ADDRESSES_AT, p.len()))?;
    put_ports(
        w,
        octet(p, 1),
        be16_or_0(p, START_PORT_AT),
        be16_or_0(p, END_PORT_AT),
    )
}

// Puts the transforms up to the last one, then the attributes.
fn put_suite(w: &mut impl Write, place: Place, f: Shown, from: usize, to: usize) -> fmt::Result {
    let mut at = from;
    while at < to {
        let end = end_at(f.octets, at, to, TRANSFORM_HEAD);
        let p = f.part(at, end);
        if f.breaks_at(at) {
            return text_faults::of_transform(w, p, at);
        }
        let id = be16_or_0(p, TRANSFORM_ID_AT);
        put_transform(w, octet(p, TRANSFORM_TYPE_AT), id, f, at, end)?;
        if f.breaks_within(at, end) {
            return Ok(());
        }
        if f.octet(at) != MORE_TRANSFORMS {
            return put_attributes(w, place, f, end, to);
        }
        at = end;
    }
    text_faults::of_missing(w, "last transform", f.stop.unwrap_or(from))
}
