// Reads what a view shows, from a plain slice and a cursor.
ghost use Rattle.std.specs.Prelude.{◌≡◌, ◌+◌, ◌<◌, ◌≤◌, IsTrue, length};
ghost use Rattle.wire_view.specs.View.{first_octet, octet_of, shown_kind, shown_spi, spi_start};
ghost use Rattle.wire_view.specs.View.{cursor_at, stay_step, selector_step, transform_step, policy_place, attribute_step, first_step};
ghost use Rattle.wire_view.specs.View.{step_by, is_counted};
ghost use Rattle.wire_view.specs.View.{step_at, item_at, next_after, is_at_end};

use crate::items::Item;
use ikev2_numbers::{MORE_TRANSFORMS, NO_PROTOCOL, POLICY_HEAD, STRUCTURE_LENGTH_AT};
use wire_attributes::tables::Place;

// A policy: a Group SA policy by its protocol (6 Rekey, 3 ESP, 2 AH), or a group-wide policy.
#[derive(Clone, Copy)]
pub enum Kind {
    GroupSa(usize),
    GroupWide,
}

// Whether `s` has as many octets as its length field says.
fn is_counted(s: &[u8]) -> bool
    ensures counted { result ≡ is_counted s.now }
    ensures short { IsTrue result → (4 ≤ length s.now) × (length s.now < 65536) }
{
    POLICY_HEAD <= s.len() && octets::numbers::be16_at(s, STRUCTURE_LENGTH_AT) == s.len()
}

// Answers which policy `s` is, from its first octet to its end, if it is one.
pub fn kind_of(s: &[u8]) -> Option<Kind>
    ensures { (result ≡ shown_kind s.now) × (first_octet result ≡ octet_of s.now) }
{
    if !is_counted(s) {
        return None;
    }
    wire_policies::policy_spot(s, 0).ok()?;
    let p = octets::wide(s[0]);
    if p == NO_PROTOCOL {
        return Some(Kind::GroupWide);
    }
    Some(Kind::GroupSa(p))
}

// Answers the SPI of the policy `s`, as a slice of `s`; empty for a group-wide policy and for no policy.
pub fn spi_of(s: &[u8]) -> &[u8]
    ensures { (result.now ≡ shown_spi s.now)
        × (result.ref_ptr ≡ (s.entry.ref_ptr.0, spi_start s.now + s.entry.ref_ptr.1)) }
{
    match kind_of(s) {
        Some(Kind::GroupSa(p)) => {
            let e = POLICY_HEAD + wire_policies::spi_size(p);
            &s[POLICY_HEAD..e]
        }
        _ => &s[0..0],
    }
}

// What stands at a cursor, if anything does, and the cursor behind it.
#[derive(Clone, Copy)]
pub struct Step {
    pub item: Option<Item>,
    pub next: usize,
}

// What comes at a cursor's offset. A cursor is `PARTS` times the offset, plus one of the three; plus 0 is before the first part.
const DESTINATION: usize = 1;

const TRANSFORM: usize = 2;

const ATTRIBUTE: usize = 3;

const PARTS: usize = 4;

// Makes the cursor at the offset `at` for what `comes` there.
fn cursor_at(at: usize, comes: usize) -> usize
    requires { (at < 65536) × (comes < 4) }
    ensures { result ≡ cursor_at at comes }
{
    PARTS * at + comes
}

// Answers the step that shows nothing and stays at the cursor `c`.
fn stay(c: usize) -> Step
    ensures { result ≡ stay_step c }
{
    Step {
        item: None,
        next: c,
    }
}

// Steps over the selector at the offset `at` of the policy `s`; `comes` says what follows it. Stays at the cursor `c` if no selector is
// laid out there.
fn selector_step(s: &[u8], c: usize, comes: usize, at: usize) -> Step
    requires { (length s.now < 65536) × (comes < 4) }
    ensures { result ≡ selector_step s.now c comes at }
{
    if s.len() < at {
        return stay(c);
    }
    match wire_policies::selectors::selector_spot(&s[at..], at, 0) {
        Ok(e) => {
            let end = at + e;
            let item = crate::items::selector_item(&s[at..end], at);
            Step {
                item: Some(item),
                next: cursor_at(end, comes),
            }
        }
        Err(_) => stay(c),
    }
}

// Steps over the transform at the offset `at` of the policy `s`. Stays at the cursor `c` if no transform is laid out there.
fn transform_step(s: &[u8], c: usize, at: usize) -> Step
    requires { length s.now < 65536 }
    ensures { result ≡ transform_step s.now c at }
{
    if s.len() < at {
        return stay(c);
    }
    match wire_policies::transforms::transform_spot(&s[at..], at, 0) {
        Ok(e) => {
            let end = at + e;
            let item = crate::items::transform_item(&s[at..end]);
            let then = if octets::wide(s[at]) == MORE_TRANSFORMS {
                TRANSFORM
            } else {
                ATTRIBUTE
            };
            Step {
                item: Some(item),
                next: cursor_at(end, then),
            }
        }
        Err(_) => stay(c),
    }
}

// Answers the place of the attributes of the policy `s`, by its first octet.
fn place_of(s: &[u8]) -> Place
    requires { 0 < length s.now }
    ensures { result ≡ policy_place s.now }
{
    let p = octets::wide(s[0]);
    if p == NO_PROTOCOL {
        return Place::GroupWidePolicy;
    }
    wire_attributes::tables::in_policy(p)
}

// Steps over the attribute at the offset `at` of the policy `s`. Stays at the cursor `c` if no attribute is laid out there.
fn attribute_step(s: &[u8], c: usize, at: usize) -> Step
    requires { (0 < length s.now) × (length s.now < 65536) }
    ensures { result ≡ attribute_step s.now c at }
{
    if s.len() < at {
        return stay(c);
    }
    let place = place_of(s);
    match wire_attributes::attribute_in(place, &s[at..], at) {
        Ok(e) => {
            let end = at + e;
            let item = crate::items::attribute_item(place, &s[at..], at);
            Step {
                item,
                next: cursor_at(end, ATTRIBUTE),
            }
        }
        Err(_) => stay(c),
    }
}

// Steps over the source selector or, in a group-wide policy, over the first attribute of `s`. Stays at the cursor `c` if `s` is no policy
// or holds nothing.
fn first_step(s: &[u8], c: usize) -> Step
    requires { (0 < length s.now) × (length s.now < 65536) }
    ensures { result ≡ first_step s.now c }
{
    match kind_of(s) {
        Some(Kind::GroupSa(p)) => selector_step(
            s,
            c,
            DESTINATION,
            POLICY_HEAD + wire_policies::spi_size(p),
        ),
        Some(Kind::GroupWide) => attribute_step(s, c, POLICY_HEAD),
        None => stay(c),
    }
}

// Steps from the cursor `c`: `comes` says what comes there, `at` at which offset.
fn step_by(s: &[u8], c: usize, comes: usize, at: usize) -> Step
    requires { (0 < length s.now) × (length s.now < 65536) }
    ensures { result ≡ step_by s.now c comes at }
{
    match comes {
        0 => first_step(s, c),
        DESTINATION => selector_step(s, c, TRANSFORM, at),
        TRANSFORM => transform_step(s, c, at),
        _ => attribute_step(s, c, at),
    }
}

// Answers what stands at the cursor `c` of the policy `s`, and the cursor moved on; at the end the cursor stays. Shows nothing where the
// length field of `s` is not `s.len()`.
pub fn step_at(s: &[u8], c: usize) -> Step
    ensures { result ≡ step_at s.now c }
{
    if !is_counted(s) {
        return stay(c);
    }
    step_by(s, c, c % PARTS, c / PARTS)
}

// Answers what stands at the cursor `c` of the policy `s`.
pub fn item_at(s: &[u8], c: usize) -> Option<Item>
    ensures { result ≡ item_at s.now c }
{
    step_at(s, c).item
}

// Answers the cursor `c` of the policy `s` moved on; at the end it stays.
pub fn next_after(s: &[u8], c: usize) -> usize
    ensures { result ≡ next_after s.now c }
{
    step_at(s, c).next
}

// Whether nothing stands at the cursor `c` of the policy `s`.
pub fn is_at_end(s: &[u8], c: usize) -> bool
    ensures { result ≡ is_at_end s.now c }
{
    item_at(s, c).is_none()
}
