// Attributes (RFC 7296, section 3.3.5), and which of them are read where.
// For customers: `attribute_value` and `attribute_in`. All else is internal.
#![tactic(auto)]

ghost use Rattle.std.specs.Prelude.{◌≡◌, ◌+◌, ◌<◌, length, drop};
ghost use Rattle.wire_attributes.specs.Layout.{attribute, attributes};
ghost use Rattle.wire_attributes.specs.Answers.{layout_of, spot_of, value_at, value_start, read_of};

use ikev2_numbers::{ATTRIBUTE_HEAD, FORMAT_BIT, SHORT_ATTRIBUTE, SHORT_HEAD};

pub mod tables;

// Where a layout broke: the offset in the frame of the structure that broke first.
#[derive(Clone, Copy, Debug, PartialEq, Eq)]
pub struct Broken {
    pub at: usize,
}

// The head of a whole attribute: whether it has the short format (TV), its type, where its value starts and where it ends.
#[derive(Clone, Copy, Debug, PartialEq, Eq)]
pub struct AttributeHead {
    pub short: bool,
    pub kind: usize,
    pub start: usize,
    pub end: usize,
}

// Reads the attribute at the start of `s`. There is none if it is cut short: `s` has not all its octets.
pub fn read_attribute(s: &[u8]) -> Option<AttributeHead>
    ensures { result ≡ read_of s.now }
{
    if s.len() < ATTRIBUTE_HEAD {
        return None;
    }
    let t = octets::numbers::be16_at(s, 0);
    if FORMAT_BIT <= t {
        return Some(AttributeHead {
            short: true,
            kind: t % FORMAT_BIT,
            start: SHORT_HEAD,
            end: SHORT_ATTRIBUTE,
        });
    }
    let n = octets::numbers::be16_at(s, 2);
    if s.len() - ATTRIBUTE_HEAD < n {
        return None;
    }
    Some(AttributeHead {
        short: false,
        kind: t % FORMAT_BIT,
        start: ATTRIBUTE_HEAD,
        end: ATTRIBUTE_HEAD + n,
    })
}

// Answers the value of the attribute at index `at` of `s`, as a slice of `s`; empty if no whole attribute stands there.
pub fn attribute_value(s: &[u8], at: usize) -> &[u8]
    ensures result_value { result.now ≡ value_at (drop at s.now) }
    ensures ref_ptr_value { result.ref_ptr ≡ (s.entry.ref_ptr.0, value_start s.now at + s.entry.ref_ptr.1) }
{
    if s.len() < at {
        return &s[0..0];
    }
    match read_attribute(&s[at..]) {
        Some(a) => &s[at + a.start..at + a.end],
        None => &s[0..0],
    }
}

// Reads the attribute at the start of `s` and answers where it ends. An attribute that is cut short, or has not the format and size that
// `place` asks for, is broken at `base`, the offset of `s` in the frame.
pub fn attribute_in(place: tables::Place, s: &[u8], base: usize) -> Result<usize, Broken>
    ensures { result ≡ spot_of s.now (attribute place base s.now) }
{
    let broken = Broken { at: base };
    let a = read_attribute(s).ok_or(broken)?;
    if !tables::is_formed(tables::meaning_in(place, a.kind), a.short, a.end - a.start) {
        return Err(broken);
    }
    Ok(a.end)
}

// Checks that `s` is attributes of `place`, one after the other to its end; `base` is the offset of `s` in the frame.
pub fn are_attributes(place: tables::Place, s: &[u8], base: usize) -> Result<(), Broken>
    requires { base + length s.now < 4294967296 }
    ensures { result ≡ layout_of (attributes place base s.now) }
{
    // Kept as a loop of its own: over a closure it would need a contract on what is read and where it ends, longer than the loop.
    let mut at = 0;
    while at < s.len() {
        at += attribute_in(place, &s[at..], base + at)?;
    }
    Ok(())
}
