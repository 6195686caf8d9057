// Keys as they are lent to each search by Key ID: a list of Key IDs beside one block of octets. Each key has a place in the block, all of
// one size. A frame's keys and the held keys are lent in two blocks.
// Internal: crates of this repository alone call it.
#![tactic(auto)]

ghost use Rattle.std.specs.Prelude.{◌≡◌, true, cond, List, ℕ, ◌+◌, ◌*◌, ◌≤◌, ◌<◌, length, get_or};
ghost use Rattle.state_keys.specs.Kinds.{value_of};
ghost use Rattle.state_keys.specs.Limits.{limits};
ghost use Rattle.state.specs.Held.{blank_key, held_formed, has};
ghost use Rattle.state.specs.declared.held.HeldKey.{HeldKey};
ghost use Rattle.unwrap_lending.specs.inner.Lending.{key_octets, place_octets, Lends, Rooms, LendsFirst, LendsNamed, Puts};
ghost use Rattle.unwrap_lending.specs.inner.Named.{FindsFirst, key_start, octets_named};

use state::held::{Held, HeldKey};
use state_keys::kinds::WrappingKey;
use state_keys::limits::HELD_KEYS;

// The size of a key's place in the block: its octet count (one octet), then the octets of its array.
pub const PLACE: usize = 1 + WrappingKey::KW_256;

// The size of a block with places for all held keys.
pub const BLOCK: usize = PLACE * HELD_KEYS;

// Puts `key` into its place in `block`, which starts at `at`.
fn put(key: &WrappingKey, at: usize, block: &mut [u8])
    requires place_octets_in_bounds { at + place_octets ≤ length block.old }
    requires count_le_key_octets { key.now.count ≤ key_octets }
    ensures { Puts key.now at block.old block.new }
{
    block[at] = key.count as u8;
    block[at + 1..at + PLACE].copy_from_slice(&key.octets);
}

// Writes the Key IDs of `held` to the start of `ids`, and its keys to the first places of `block`.
pub fn lend_keys(held: &Held, ids: &mut [u32], block: &mut [u8])
    requires held_value { held_formed limits held.now ≡ true }
    requires rooms { Rooms ids.old block.old }
    ensures { LendsFirst held.now ids.new block.new }
{
    let keys: &[HeldKey] = &held.keys;
    for (i, k) in keys[..held.count].iter().enumerate() {
        ids[i] = k.id;
        put(&k.key, PLACE * i, block);
    }
}

// Writes the keys that `reached` has to the first places of `block`, one for each of `ids`: the key with that Key ID, or one of no octets
// if the list has none.
pub fn lend_named(ids: &[u32], reached: &Held, block: &mut [u8])
    requires reached_value { held_formed limits reached.now ≡ true }
    requires ids_len_bound { (length ids.now ≤ limits.held_keys) × (length block.old ≡ place_octets * limits.held_keys) }
    ensures { LendsNamed reached.now ids.now block.new }
{
    for (i, id) in ids.iter().enumerate() {
        let key = reached.find(*id).unwrap_or(WrappingKey::blank());
        put(&key, PLACE * i, block);
    }
}

// Finds the first of `ids` that equals `id`.
fn place_of(id: u32, ids: &[u32]) -> Option<usize>
    ensures { FindsFirst id ids.now result }
{
    ids.iter().position(|x| *x == id)
}

// Answers the value of the lent key at place `i`, a part of `block`.
pub fn value_at(i: usize, block: &[u8]) -> &[u8]
    requires { (keys : List HeldKey) × (ids : List ℕ) × Lends keys ids block.now × (i < length keys) }
    ensures result_value { (keys : List HeldKey) (ids : List ℕ) → Lends keys ids block.now → i < length keys →
        result.now ≡ value_of (get_or keys i blank_key).key }
    ensures ref_ptr_value { result.ref_ptr ≡ (block.entry.ref_ptr.0, place_octets * i + 1 + block.entry.ref_ptr.1) }
{
    let at = PLACE * i;
    let start = at + 1;
    let count = usize::from(block[at]);
    &block[start..start + count]
}

// Finds the octets of the key that the KWK ID `id` names: "the fresh key if the frame carries any entry for that ID, otherwise the held
// key, so a key's octets come back as a part of the fresh block or else of the held block" (document 02, T-11). `carried` are the Key IDs
// of the fresh block and `ids` those of the held block. Answers no octets if there is no such key.
pub fn octets_named<'a>(
    id: u32,
    fresh: &'a [u8],
    carried: &[u32],
    held: &'a [u8],
    ids: &[u32],
) -> &'a [u8]
    requires lends { (keys : List HeldKey) × Lends keys carried.now fresh.now }
    requires lends_2 { (keys : List HeldKey) × Lends keys ids.now held.now }
    ensures result_value { (new old : List HeldKey) → Lends new carried.now fresh.now →
        Lends old ids.now held.now → result.now ≡ octets_named id new old }
    ensures ref_ptr_value { result.ref_ptr ≡ cond (has id carried.now)
        (fresh.entry.ref_ptr.0, key_start id carried.now + fresh.entry.ref_ptr.1)
        (held.entry.ref_ptr.0, key_start id ids.now + held.entry.ref_ptr.1) }
{
    if let Some(i) = place_of(id, carried) {
        return value_at(i, fresh);
    }
    if let Some(j) = place_of(id, ids) {
        return value_at(j, held);
    }
    &held[0..0]
}
