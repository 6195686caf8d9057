// Opened frames: the IKE header, the chain of payloads and the Delete payload (RFC 7296, sections 3.1, 3.2 and 3.11).
// For customers: `frame_layout` and `layout_with_profile`. All else is internal.
#![tactic(auto)]

ghost use Rattle.std.specs.Prelude.{◌≡◌, false, ◌+◌, ◌<◌, length};
ghost use Rattle.wire_attributes.specs.Answers.{layout_of, spot_of};
ghost use Rattle.wire_frames.specs.Delete.{delete_fits};
ghost use Rattle.wire_frames.specs.Frame.{body, payload, payloads, nothing_left};
ghost use Rattle.wire_frames.specs.Laid.{Laid};
ghost use Rattle.wire_frames.specs.inner.Answers.{header_read, payload_read};

use exchanges::reads_fresh;
use ikev2_numbers::{
    CRITICAL, DATA_SPI, DELETE, DELETE_COUNT_AT, DELETE_HEAD, ESP, EXCHANGE_AT, FIRST_PAYLOAD_AT,
    GSA, HEADER, KD, LENGTH_AT, MAJOR_VERSION, MESSAGE_ID_AT, MINOR_VERSIONS, MOST_OCTETS,
    NO_PAYLOAD, PAYLOAD_HEADER, STRUCTURE_LENGTH_AT, VERSION_AT,
};
use wire_attributes::Broken;

pub mod exchanges;

// What is read of an IKE header: the type of the first payload, the exchange type and the Message ID.
#[derive(Clone, Copy, Debug, PartialEq, Eq)]
pub struct IkeHeader {
    pub first: usize,
    pub exchange: usize,
    pub message_id: u32,
}

// Reads the IKE header of the frame `s`. There is none if `s` is shorter than a header or longer than a frame may be, if its length field is
// not `s.len()`, or if its major version is not 2.
pub fn read_header(s: &[u8]) -> Option<IkeHeader>
    ensures { result ≡ header_read s.now }
{
    if s.len() < HEADER
        || MOST_OCTETS < s.len()
        || octets::numbers::be32_at(s, LENGTH_AT) as usize != s.len()
        || octets::wide(s[VERSION_AT]) / MINOR_VERSIONS != MAJOR_VERSION
    {
        return None;
    }
    Some(IkeHeader {
        first: octets::wide(s[FIRST_PAYLOAD_AT]),
        exchange: octets::wide(s[EXCHANGE_AT]),
        message_id: octets::numbers::be32_at(s, MESSAGE_ID_AT),
    })
}

// A generic payload header: the type of the next payload, the critical bit, where the payload ends.
#[derive(Clone, Copy, Debug, PartialEq, Eq)]
pub struct PayloadHeader {
    pub next: usize,
    pub critical: bool,
    pub end: usize,
}

// Reads the generic payload header at the start of `s`. There is none if `s` is shorter than this header, or if the length field is less
// than the header's size or more than `s.len()`.
pub fn read_payload(s: &[u8]) -> Option<PayloadHeader>
    ensures { result ≡ payload_read s.now }
{
    if !octets::numbers::is_sized(s, PAYLOAD_HEADER) {
        return None;
    }
    Some(PayloadHeader {
        next: octets::wide(s[0]),
        critical: CRITICAL <= octets::wide(s[1]),
        end: octets::numbers::be16_at(s, STRUCTURE_LENGTH_AT),
    })
}

// Whether `s` is laid out as the body of a Delete payload: its SPIs, size times count, fill it behind its head, and the size is 4 for ESP.
fn delete_fits(s: &[u8]) -> bool
    ensures { result ≡ delete_fits s.now }
{
    if s.len() < DELETE_HEAD {
        return false;
    }
    let z = octets::wide(s[1]);
    let filled = DELETE_HEAD + z * octets::numbers::be16_at(s, DELETE_COUNT_AT) == s.len();
    filled && (octets::wide(s[0]) != ESP || z == DATA_SPI)
}

// Checks the body `s` of a payload of the type `kind`. `fresh` says whether fresh keys are read, `base` is the offset of the body, `holder`
// that of the payload: a broken Delete body counts for the payload. A body that is not read is whole.
fn body_layout(fresh: bool, kind: usize, s: &[u8], base: usize, holder: usize) -> Result<(), Broken>
    requires { base + length s.now < 4294967296 }
    ensures { result ≡ layout_of (body fresh kind holder base s.now) }
{
    match kind {
        GSA => wire_policies::are_policies(s, base),
        KD => wire_bags::are_bags(fresh, s, base),
        DELETE => {
            if delete_fits(s) {
                Ok(())
            } else {
                Err(Broken { at: holder })
            }
        }
        _ => Ok(()),
    }
}

// Reads the payload of the type `kind` at the start of `s` and answers where it ends. `fresh` says whether fresh keys are read, `base` is
// the offset of `s`. A payload that is missing, where `s` is empty, counts for the header, at 0.
pub fn payload_spot(fresh: bool, kind: usize, s: &[u8], base: usize) -> Result<usize, Broken>
    requires { base + length s.now < 4294967296 }
    ensures { result ≡ spot_of s.now (payload fresh kind base s.now) }
{
    if s.is_empty() {
        return Err(Broken { at: 0 });
    }
    let end = read_payload(s).ok_or(Broken { at: base })?.end;
    body_layout(
        fresh,
        kind,
        &s[PAYLOAD_HEADER..end],
        base + PAYLOAD_HEADER,
        base,
    )?;
    Ok(end)
}

// Checks that `s` is payloads to its end, the first of the type `first`. `fresh` says whether fresh keys are read, `base` is the offset of
// `s`. Octets left over count for the header, at 0.
fn payloads_layout(fresh: bool, first: usize, s: &[u8], base: usize) -> Result<(), Broken>
    requires { base + length s.now < 4294967296 }
    ensures { result ≡ layout_of (nothing_left (payloads fresh first base s.now)) }
{
    let mut kind = first;
    let mut at = 0;
    while kind != NO_PAYLOAD {
        let e = payload_spot(fresh, kind, &s[at..], base + at)?;
        kind = octets::wide(s[at]);
        at += e;
    }
    if at != s.len() {
        return Err(Broken { at: 0 });
    }
    Ok(())
}

// Checks the layout of the frame `s`, whatever its octets are: whole, or broken (refusal 1) with the offset of the structure that broke
// first. It reads the frame for a member with this `profile` (document 02, T-11): with it fresh keys are read in a GSA_REKEY.
pub fn layout_with_profile(profile: bool, s: &[u8]) -> Result<(), Broken>
    ensures { Laid profile s.now result }
{
    let header = read_header(s).ok_or(Broken { at: 0 })?;
    let fresh = reads_fresh(profile, header.exchange);
    payloads_layout(fresh, header.first, &s[HEADER..], HEADER)
}

// Checks the layout of the frame `s`, whatever its octets are, for a member without the profile: no fresh keys are read.
pub fn frame_layout(s: &[u8]) -> Result<(), Broken>
    ensures { Laid false s.now result }
{
    layout_with_profile(false, s)
}
