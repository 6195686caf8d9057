// Reads the entries of a KD body: the WRAP_KEYs of a registration, which stand in its Member Key Bag alone, or the fresh tree keys of a
// rekey, which stand in the bag of its Rekey SA.
ghost use Rattle.std.specs.Prelude.{◌≡◌, List, ℕ, ◌-◌, ◌≤◌, length};
ghost use Rattle.state_keys.specs.Limits.{limits};
ghost use Rattle.octets.specs.Walk.{part};
ghost use Rattle.wire_attributes.specs.Tree.{WrapKey, wrap_key_of};
ghost use Rattle.unwrap_search.specs.inner.Entries.{IsEntry, Lists, no_entry};
ghost use Rattle.unwrap_tree.specs.inner.Entries.{HoldsEntries};

use crate::source::Source;
use ikev2_numbers::{KWK_ID_AT, WRAPPED_AT};
use state_keys::limits::WRAP_KEYS;
use unwrap_search::open::Entry;
use wire_attributes::attribute_value;
use wire_readers::values::next_attribute;

// A list of entries: the first `count` of `places`.
// Kept as an array with its count, since memory is fixed.
#[derive(Clone, Copy)]
pub struct Listing {
    pub places: [Entry; WRAP_KEYS],
    pub count: usize,
}

// Answers the entry that fills the array behind the last one.
fn blank() -> Entry
    ensures { result ≡ no_entry }
{
    Entry {
        id: 0,
        kwk: 0,
        start: 0,
        end: 0,
    }
}

// Reads the entry of an attribute with the layout of a WRAP_KEY. `v` is the value of the attribute, and it ends at the offset `e` of the KD
// body.
fn entry(v: &[u8], e: usize) -> Entry
    requires { (8 ≤ length v.now) × (length v.now ≤ e) }
    ensures { (k : List ℕ) → e ≤ length k → v.now ≡ part k (e - length v.now) e
        → IsEntry k result (wrap_key_of v.now) }
{
    let wrapped = v.len() - WRAPPED_AT;
    let start = e - wrapped;
    Entry {
        id: octets::numbers::be32_at(v, 0),
        kwk: octets::numbers::be32_at(v, KWK_ID_AT),
        start,
        end: e,
    }
}

// Reads the entries of the KD body `kd`, which stand where `source` says, in their order.
pub fn entries(kd: &[u8], source: Source) -> Listing
    requires { (l : List WrapKey) × HoldsEntries source.meaning source.place kd.now source.bag l × (length l ≤ limits.wrap_keys) }
    ensures { (l : List WrapKey) → HoldsEntries source.meaning source.place kd.now source.bag l →
        Lists kd.now result.places result.count l }
{
    let Source {
        bag,
        meaning,
        place,
    } = source;
    let a = bag.start;
    let e = bag.end;
    let s = &kd[a..e];
    let mut places = [blank(); WRAP_KEYS];
    let mut n: usize = 0;
    let mut at: usize = 0;
    while let Some(x) = next_attribute(meaning, place, s, at) {
        let d = x.end;
        places[n] = entry(attribute_value(s, x.start), a + d);
        n += 1;
        at = d;
    }
    Listing { places, count: n }
}
