// Reads the attributes of a stretch whose layout is whole.
ghost use Rattle.std.specs.Prelude.{◌≡◌, true, ◌+◌, ◌≤◌, ◌<◌, length, drop};
ghost use Rattle.wire_attributes.specs.Layout.{attributes};
ghost use Rattle.wire_readers.specs.inner.Values.{is_whole, values_in, FindsValue, first_value, first_start, value_size};

use crate::Stretch;
use wire_attributes::tables::{Meaning, Place};

// Finds the first attribute of `s` from index `from` on that means `m` in `place`, and answers where it stands.
// `wire_attributes::attribute_value` takes its start.
pub fn next_attribute(m: Meaning, place: Place, s: &[u8], from: usize) -> Option<Stretch>
    requires { (from ≤ length s.now) × (is_whole (attributes place 0 (drop from s.now)) ≡ true) }
    ensures { FindsValue m place s.now from result }
{
    let mut at = from;
    while at < s.len() {
        let a = wire_attributes::read_attribute(&s[at..])?;
        let next = at + a.end;
        if wire_attributes::tables::meaning_in(place, a.kind) == m {
            return Some(Stretch {
                start: at,
                end: next,
            });
        }
        at = next;
    }
    None
}

// Answers the value of the first attribute of `s` from index `from` on that means `m` in `place`, as a slice of `s`; empty if there is
// none.
pub fn value_of(m: Meaning, place: Place, s: &[u8], from: usize) -> &[u8]
    requires { (from ≤ length s.now) × (is_whole (attributes place 0 (drop from s.now)) ≡ true) }
    ensures result_value { (result.now ≡ first_value m place s.now from) × (0 < length result.now → value_size m (length result.now) ≡ true) }
    ensures ref_ptr_value { result.ref_ptr ≡ (s.entry.ref_ptr.0, first_start m place s.now from + s.entry.ref_ptr.1) }
{
    match next_attribute(m, place, s, from) {
        Some(a) => wire_attributes::attribute_value(s, a.start),
        None => &s[0..0],
    }
}

// Counts the attributes of `s` that mean `m` in `place`.
pub fn count_of(m: Meaning, place: Place, s: &[u8]) -> usize
    requires { is_whole (attributes place 0 s.now) ≡ true }
    ensures { result ≡ length (values_in m place s.now) }
{
    let mut n = 0;
    let mut at = 0;
    while let Some(a) = next_attribute(m, place, s, at) {
        n += 1;
        at = a.end;
    }
    n
}
