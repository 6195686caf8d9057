// Policies of a GSA payload (RFC 9838, section 4.4): selectors, transforms, Group SA policies and group-wide policies.
// Internal: crates of this repository alone call it.
#![tactic(auto)]

ghost use Rattle.std.specs.Prelude.{◌≡◌, true, ◌+◌, ◌<◌, length};
ghost use Rattle.octets.specs.Walk.{be16, part};
ghost use Rattle.wire_attributes.specs.Answers.{layout_of, spot_of};
ghost use Rattle.wire_policies.specs.Policy.{suite, sa_body, spi_size, head_size, head_fits, policy_holds, policy, policies};

use ikev2_numbers::{
    AH, DATA_SPI, ESP, GIKE_UPDATE, NO_PROTOCOL, POLICY_HEAD, REKEY_SPI, STRUCTURE_LENGTH_AT,
};
use wire_attributes::Broken;
use wire_attributes::tables::Place;

pub mod selectors;
pub mod transforms;

// Checks that `s` is one or more transforms, then attributes of `place` to its end. `base` is the offset of `s`, `holder` that of the
// policy.
fn suite_layout(place: Place, s: &[u8], base: usize, holder: usize) -> Result<(), Broken>
    requires { base + length s.now < 4294967296 }
    ensures { result ≡ layout_of (suite holder place base s.now) }
{
    let e = transforms::transforms_spot(s, base, holder)?;
    wire_attributes::are_attributes(place, &s[e..], base + e)
}

// Checks what a Group SA policy holds after its SPI: two selectors, one or more transforms, attributes of `place`. `base` is the offset of
// `s`, `holder` that of the policy.
fn body_layout(place: Place, s: &[u8], base: usize, holder: usize) -> Result<(), Broken>
    requires { base + length s.now < 4294967296 }
    ensures { result ≡ layout_of (sa_body holder place base s.now) }
{
    let a = selectors::selector_spot(s, base, holder)?;
    let d = selectors::selector_spot(&s[a..], base + a, holder)?;
    let t = a + d;
    suite_layout(place, &s[t..], base + t, holder)
}

// Answers how many octets an SPI of `protocol` has; 0 where `protocol` is not Rekey, ESP or AH.
pub fn spi_size(protocol: usize) -> usize
    ensures { (result ≡ spi_size protocol) × (result < 17) }
{
    match protocol {
        GIKE_UPDATE => REKEY_SPI,
        ESP | AH => DATA_SPI,
        _ => 0,
    }
}

// Whether the head of a policy or key bag at the start of `s` fits. Its first octet must be known and, unless it is 0, have its protocol's
// SPI size behind it; the length field must be at least the head's size with the SPI and at most `s.len()`.
pub fn head_fits(s: &[u8]) -> bool
    ensures { result ≡ head_fits s.now }
{
    if s.len() < POLICY_HEAD {
        return false;
    }
    let p = octets::wide(s[0]);
    if p == NO_PROTOCOL {
        return octets::numbers::is_sized(s, POLICY_HEAD);
    }
    let z = spi_size(p);
    z != 0 && octets::wide(s[1]) == z && octets::numbers::is_sized(s, POLICY_HEAD + z)
}

// Checks what the policy at the start of `s` holds after its head, which must fit. `base` is the offset of `s`.
fn policy_layout(s: &[u8], base: usize) -> Result<(), Broken>
    requires { (head_fits s.now ≡ true) × (base + length s.now < 4294967296) }
    ensures { result ≡ layout_of (policy_holds base s.now (base + head_size s.now)
        (part s.now (head_size s.now) (be16 s.now 2))) }
{
    let p = octets::wide(s[0]);
    let n = octets::numbers::be16_at(s, STRUCTURE_LENGTH_AT);
    let z = POLICY_HEAD + spi_size(p);
    if p == NO_PROTOCOL {
        return wire_attributes::are_attributes(Place::GroupWidePolicy, &s[z..n], base + z);
    }
    body_layout(
        wire_attributes::tables::in_policy(p),
        &s[z..n],
        base + z,
        base,
    )
}

// Reads the policy at the start of `s` and answers where it ends. `base` is the offset of `s`.
pub fn policy_spot(s: &[u8], base: usize) -> Result<usize, Broken>
    requires { base + length s.now < 4294967296 }
    ensures { result ≡ spot_of s.now (policy base s.now) }
{
    if !head_fits(s) {
        return Err(Broken { at: base });
    }
    policy_layout(s, base)?;
    Ok(octets::numbers::be16_at(s, STRUCTURE_LENGTH_AT))
}

// Checks that `s` is policies, one after the other to its end. `base` is the offset of `s`.
pub fn are_policies(s: &[u8], base: usize) -> Result<(), Broken>
    requires { base + length s.now < 4294967296 }
    ensures { result ≡ layout_of (policies base s.now) }
{
    // Kept as a loop of its own: over a closure it would need a contract on what is read and where it ends, longer than the loop.
    let mut at = 0;
    while at < s.len() {
        at += policy_spot(&s[at..], base + at)?;
    }
    Ok(())
}
