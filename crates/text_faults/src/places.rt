// Reads a slice at places that may lie outside of it.
ghost use Rattle.std.specs.Prelude.{◌<◌, ◌≤◌};

use ikev2_numbers::STRUCTURE_LENGTH_AT;

// Answers the octets of `s` from `from` up to `to`, or none if these are not all within `s`.
pub fn part(s: &[u8], from: usize, to: usize) -> &[u8] {
    s.get(from..to).unwrap_or(&[])
}

// Answers the octet of `s` at `at`, or 0 outside of `s`.
pub fn octet(s: &[u8], at: usize) -> usize
    ensures { result < 256 }
{
    s.get(at).map_or(0, |o| *o as usize)
}

// Reads the two octets of `s` from `at` on as a number, or answers 0 if they are not there.
pub fn be16_or_0(s: &[u8], at: usize) -> usize
    ensures { result < 65536 }
{
    if at < s.len() && 2 <= s.len() - at {
        return octets::numbers::be16_at(s, at);
    }
    0
}

// Reads the four octets of `s` from `at` on as a number, or answers 0 if they are not there.
pub fn be32_or_0(s: &[u8], at: usize) -> usize {
    if at < s.len() && 4 <= s.len() - at {
        return octets::numbers::be32_at(s, at) as usize;
    }
    0
}

// Answers where the structure at `at` ends, by its length field (octets 2 and 3). Answers `to` if that length is under `least` or leads
// behind `to`.
pub fn end_at(s: &[u8], at: usize, to: usize, least: usize) -> usize
    requires { (at < to) × (0 < least) }
    ensures { (at < result) × (result ≤ to) }
{
    let n = be16_or_0(part(s, at, to), STRUCTURE_LENGTH_AT);
    if n < least || to - at < n {
        return to;
    }
    at + n
}

// Answers where the attribute at `at` ends, or `to` if no whole attribute stands there.
pub fn attribute_end(s: &[u8], at: usize, to: usize) -> usize
    requires { at < to }
    ensures { (at < result) × (result ≤ to) }
{
    match wire_attributes::read_attribute(part(s, at, to)) {
        Some(a) if 0 < a.end && a.end <= to - at => at + a.end,
        _ => to,
    }
}

// Whether the structure from `at` to `end` holds `stop`, the offset at which a layout breaks.
pub fn holds(at: usize, stop: usize, end: usize) -> bool {
    at <= stop && stop < end
}
