// Traffic selectors (RFC 7296, section 3.13.1).
ghost use Rattle.std.specs.Prelude.{◌≡◌, ◌<◌};
ghost use Rattle.wire_attributes.specs.Answers.{spot_of};
ghost use Rattle.wire_policies.specs.Selector.{selector_size, selector};

use ikev2_numbers::{
    IPV4_SELECTOR, IPV6_SELECTOR, STRUCTURE_LENGTH_AT, TS_IPV4_ADDR_RANGE, TS_IPV6_ADDR_RANGE,
};
use wire_attributes::Broken;

// Answers how many octets a selector of the type `kind` has; 0 for an unknown type.
pub fn selector_size(kind: usize) -> usize
    ensures { (result ≡ selector_size kind) × (result < 41) }
{
    match kind {
        TS_IPV4_ADDR_RANGE => IPV4_SELECTOR,
        TS_IPV6_ADDR_RANGE => IPV6_SELECTOR,
        _ => 0,
    }
}

// Reads the selector at the start of `s` and answers where it ends. `base` is the offset of `s`, `holder` that of the policy. Where `s` is
// empty the selector is missing and counts for the policy.
pub fn selector_spot(s: &[u8], base: usize, holder: usize) -> Result<usize, Broken>
    ensures { result ≡ spot_of s.now (selector holder base s.now) }
{
    if s.is_empty() {
        return Err(Broken { at: holder });
    }
    let n = selector_size(octets::wide(s[0]));
    if n == 0 || s.len() < n || octets::numbers::be16_at(s, STRUCTURE_LENGTH_AT) != n {
        return Err(Broken { at: base });
    }
    Ok(n)
}
