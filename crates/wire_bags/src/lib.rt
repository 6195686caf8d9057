// Key bags of a KD payload (RFC 9838, section 4.5).
// Internal: crates of this repository alone call it.
#![tactic(auto)]

ghost use Rattle.std.specs.Prelude.{◌≡◌, ◌+◌, ◌<◌, length};
ghost use Rattle.wire_attributes.specs.Answers.{layout_of, spot_of};
ghost use Rattle.wire_bags.specs.Bag.{place_of, bag, bags};

use ikev2_numbers::{NO_PROTOCOL, POLICY_HEAD, STRUCTURE_LENGTH_AT};
use wire_attributes::Broken;
use wire_attributes::tables::Place;

// Answers the place of the attributes of a key bag with the first octet `first`. `fresh` says whether fresh keys are read in the Rekey
// SA's bag.
pub fn place_of(fresh: bool, first: usize) -> Place
    ensures { result ≡ place_of fresh first }
{
    if first == NO_PROTOCOL {
        Place::MemberBag
    } else {
        wire_attributes::tables::in_bag(fresh, first)
    }
}

// Reads the key bag at the start of `s` and answers where it ends. `fresh` says whether fresh keys are read in the Rekey SA's bag, `base`
// is the offset of `s`.
pub fn bag_spot(fresh: bool, s: &[u8], base: usize) -> Result<usize, Broken>
    requires { base + length s.now < 4294967296 }
    ensures { result ≡ spot_of s.now (bag fresh base s.now) }
{
    if !wire_policies::head_fits(s) {
        return Err(Broken { at: base });
    }
    let p = octets::wide(s[0]);
    let n = octets::numbers::be16_at(s, STRUCTURE_LENGTH_AT);
    let z = POLICY_HEAD + wire_policies::spi_size(p);
    wire_attributes::are_attributes(place_of(fresh, p), &s[z..n], base + z)?;
    Ok(n)
}

// Checks that `s` is key bags, one after the other to its end. `fresh` says whether fresh keys are read in the Rekey SA's bag, `base` is
// the offset of `s`.
pub fn are_bags(fresh: bool, s: &[u8], base: usize) -> Result<(), Broken>
    requires { base + length s.now < 4294967296 }
    ensures { result ≡ layout_of (bags fresh base s.now) }
{
    // Kept as a loop of its own: over a closure it would need a contract on what is read and where it ends, longer than the loop.
    let mut at = 0;
    while at < s.len() {
        at += bag_spot(fresh, &s[at..], base + at)?;
    }
    Ok(())
}
