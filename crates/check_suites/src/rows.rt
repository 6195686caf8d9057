// The octets of keying material that one transform needs.
ghost use Rattle.std.specs.Prelude.{◌≡◌, true, List, ℕ, ◌*◌, ◌≤◌, ◌<◌, length};
ghost use Rattle.state_keys.specs.Rooms.{encryption_key_room};
ghost use Rattle.wire_attributes.specs.Place.{in_transform};
ghost use Rattle.wire_attributes.specs.Layout.{attributes};
ghost use Rattle.state_keys.specs.Algorithms.{needed_by};
ghost use Rattle.wire_readers.specs.inner.Values.{is_whole};
ghost use Rattle.rules_refusals.specs.Fitness.{octets_needed, encryption_needs, key_wrap_needs};
ghost use Rattle.check_suites.specs.inner.Octets.{key_length_needs, transform_in};

use ikev2_numbers::{ENCR, KWA};
use wire_attributes::tables::{Meaning, Place};
use wire_readers::values::next_attribute;

// Looks up the octets of keying material in the algorithm table, by transform type `kind`, ID `id` and Key Length `bits`. Answers 0 if
// there is no such row.
fn needed(kind: usize, id: usize, bits: usize) -> usize
    requires { (kind < 256) × (id < 65536) × (bits < 65536) }
    ensures { (result ≡ octets_needed (needed_by kind id bits)) × (result ≤ encryption_key_room) }
{
    state_keys::algorithms::octets_needed(kind as u8, id as u16, bits as u16).unwrap_or(0)
}

// Sums the octets that encryption with ID `id` needs, over all Key Lengths among the attributes `a` in `place`.
fn key_length_octets(place: Place, id: usize, a: &[u8]) -> usize
    requires { (id < 65536) × (is_whole (attributes place 0 a.now) ≡ true) × (length a.now < 4294967296) }
    ensures { (result ≡ key_length_needs id place a.now) × (result ≤ encryption_key_room * length a.now) }
{
    let mut total = 0;
    let mut at = 0;
    while let Some(x) = next_attribute(Meaning::KeyLength, place, a, at) {
        let v = wire_attributes::attribute_value(a, x.start);
        total += needed(1, id, octets::numbers::be16_at(v, 0));
        at = x.end;
    }
    total
}

// Answers the octets that a transform needs for encryption. Type 1 needs those of its Key Lengths in the attributes `a`, another `kind`
// none.
pub fn encryption_octets(kind: usize, id: usize, a: &[u8]) -> usize
    requires { (id < 65536) × (is_whole (attributes (in_transform kind) 0 a.now) ≡ true) × (length a.now < 4294967296) }
    ensures { (result ≡ encryption_needs (transform_in kind id a.now)) × (result ≤ encryption_key_room * length a.now) }
{
    if kind == ENCR {
        return key_length_octets(wire_attributes::tables::in_transform(kind), id, a);
    }
    0
}

// Answers the octets that a transform needs for key wrap. Type 13 needs those of its `id`, another `kind` none.
pub fn wrapping_octets(kind: usize, id: usize) -> usize
    requires { id < 65536 }
    ensures { ((a : List ℕ) → result ≡ key_wrap_needs (transform_in kind id a)) × (result ≤ encryption_key_room) }
{
    if kind == KWA {
        return needed(13, id, 0);
    }
    0
}
