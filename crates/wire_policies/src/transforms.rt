// Transforms (RFC 7296, section 3.3.2).
ghost use Rattle.std.specs.Prelude.{◌≡◌, true, ◌+◌, ◌<◌, length};
ghost use Rattle.wire_attributes.specs.Answers.{spot_of};
ghost use Rattle.wire_policies.specs.Transform.{transform_fits, transform, transforms};

use ikev2_numbers::{
    LAST_TRANSFORM, MORE_TRANSFORMS, STRUCTURE_LENGTH_AT, TRANSFORM_HEAD, TRANSFORM_TYPE_AT,
};
use wire_attributes::Broken;

// Whether `s` starts with a transform's own fields: its length field is at least their size and at most `s.len()`, its first octet is 3
// (more) or 0 (last).
fn transform_fits(s: &[u8]) -> bool
    ensures { result ≡ transform_fits s.now }
{
    octets::numbers::is_sized(s, TRANSFORM_HEAD)
        && matches!(octets::wide(s[0]), MORE_TRANSFORMS | LAST_TRANSFORM)
}

// Reads the transform at the start of `s` and answers where it ends. `base` is the offset of `s`, `holder` that of the policy. Where `s` is
// empty the transform is missing and counts for the policy.
pub fn transform_spot(s: &[u8], base: usize, holder: usize) -> Result<usize, Broken>
    requires { base + length s.now < 4294967296 }
    ensures { result ≡ spot_of s.now (transform holder true base s.now) }
{
    if s.is_empty() {
        return Err(Broken { at: holder });
    }
    if !transform_fits(s) {
        return Err(Broken { at: base });
    }
    let n = octets::numbers::be16_at(s, STRUCTURE_LENGTH_AT);
    let place = wire_attributes::tables::in_transform(octets::wide(s[TRANSFORM_TYPE_AT]));
    wire_attributes::are_attributes(place, &s[TRANSFORM_HEAD..n], base + TRANSFORM_HEAD)?;
    Ok(n)
}

// Reads one or more transforms at the start of `s` and answers where the last one ends. `base` is the offset of `s`, `holder` that of the
// policy.
pub fn transforms_spot(s: &[u8], base: usize, holder: usize) -> Result<usize, Broken>
    requires { base + length s.now < 4294967296 }
    ensures { result ≡ spot_of s.now (transforms holder base s.now) }
{
    let mut at = 0;
    loop {
        let e = transform_spot(&s[at..], base + at, holder)?;
        let m = octets::wide(s[at]);
        at += e;
        if m != MORE_TRANSFORMS {
            return Ok(at);
        }
    }
}
