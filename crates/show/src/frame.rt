// Shows a frame: its header and its payloads, up to where its layout breaks.
use crate::header::put_header;
use crate::line::{OUTER, put_head};
use ikev2_numbers::{
    CRITICAL, DELETE, FIRST_PAYLOAD_AT, GSA, HEADER, KD, NO_PAYLOAD, PAYLOAD_HEADER,
};
use std::fmt;
use std::fmt::Write;
use text_faults::places::{end_at, octet, part};
use text_names::tables;

// The Encrypted and Authenticated payload (RFC 7296) and the Encrypted and Authenticated Fragment payload (RFC 7383).
const ENCRYPTED: usize = 46;

const ENCRYPTED_FRAGMENT: usize = 53;

// The octets of a frame, and the offset at which its layout breaks, if it does.
#[derive(Clone, Copy)]
pub(crate) struct Shown<'a> {
    pub(crate) octets: &'a [u8],
    pub(crate) stop: Option<usize>,
}

impl<'a> Shown<'a> {
    // Answers the octets from `from` up to `to`, or none if these are not all within the frame.
    pub(crate) fn part(self, from: usize, to: usize) -> &'a [u8] {
        part(self.octets, from, to)
    }

    // Answers the octet at `at`, or 0 outside of the frame.
    pub(crate) fn octet(self, at: usize) -> usize {
        octet(self.octets, at)
    }

    // Whether the structure at `at` is the one that breaks the layout.
    pub(crate) fn breaks_at(self, at: usize) -> bool {
        self.stop.is_some_and(|stop| at == stop)
    }

    // Whether the structure that breaks the layout is the one from `at` to `end`, or within it.
    pub(crate) fn breaks_within(self, at: usize, end: usize) -> bool {
        self.stop.is_some_and(|stop| at <= stop && stop < end)
    }
}

// Puts the frame `s`, or why its header breaks.
pub(crate) fn put_frame(w: &mut impl Write, s: &[u8]) -> fmt::Result {
    match wire_frames::read_header(s) {
        Some(header) => {
            put_header(w, s)?;
            put_opened(w, s, header.first)
        }
        None => text_faults::of_header(w, s),
    }
}

// Puts what stands behind the header of `s`. An encrypted first payload is named and not opened.
fn put_opened(w: &mut impl Write, s: &[u8], first: usize) -> fmt::Result {
    if matches!(first, ENCRYPTED | ENCRYPTED_FRAGMENT) && HEADER < s.len() {
        put_head(w, OUTER, HEADER, s.len() - HEADER)?;
        return writeln!(
            w,
            "payload {} ({first}), encrypted: not opened",
            tables::payload(first)
        );
    }
    match wire_frames::frame_layout(s) {
        Ok(()) => {
            put_payloads(
                w,
                Shown {
                    octets: s,
                    stop: None,
                },
            )?;
            text_refusals::put_applying(w, s)
        }
        Err(broken) => {
            put_payloads(
                w,
                Shown {
                    octets: s,
                    stop: Some(broken.at),
                },
            )?;
            // Payloads that do not end with the frame count for the header.
            if broken.at == 0 {
                text_faults::of_chain(w, s)?;
            }
            Ok(())
        }
    }
}

// Puts the payloads of the frame, up to the one that breaks its layout.
fn put_payloads(w: &mut impl Write, f: Shown) -> fmt::Result {
    let mut kind = f.octet(FIRST_PAYLOAD_AT);
    let mut at = HEADER;
    while at < f.octets.len() {
        if kind == NO_PAYLOAD {
            return Ok(());
        }
        let end = end_at(f.octets, at, f.octets.len(), PAYLOAD_HEADER);
        put_payload(w, kind, f, at, end)?;
        if f.breaks_within(at, end) {
            return Ok(());
        }
        kind = f.octet(at);
        at = end;
    }
    Ok(())
}

// Puts the payload from `at` to `end`, or why it breaks.
fn put_payload(w: &mut impl Write, kind: usize, f: Shown, at: usize, end: usize) -> fmt::Result {
    if f.breaks_at(at) {
        return text_faults::of_payload(w, kind, f.part(at, end), at);
    }
    let critical = CRITICAL <= f.octet(at.saturating_add(1));
    put_head(w, OUTER, at, end.saturating_sub(at))?;
    write!(w, "payload {} ({kind})", tables::payload(kind))?;
    writeln!(w, "{}", if critical { ", critical" } else { "" })?;
    put_body(w, kind, f, at.saturating_add(PAYLOAD_HEADER), end)
}

// Puts what the body of a payload of type `kind` holds: of D, GSA and KD, and nothing of others.
fn put_body(w: &mut impl Write, kind: usize, f: Shown, from: usize, to: usize) -> fmt::Result {
    match kind {
        DELETE => crate::delete::put_delete(w, f, from, to),
        GSA => crate::policy::put_policies(w, f, from, to),
        KD => crate::bag::put_bags(w, f, from, to),
        _ => Ok(()),
    }
}
