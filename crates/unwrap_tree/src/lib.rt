// Finds the keys that the entries of a KD body reach, and the links between them, or refusal 8 of these entries.
// Internal: crates of this repository alone call it.
#![tactic(auto)]

pub mod entries;
pub mod held;
pub mod source;

ghost use Rattle.std.specs.Prelude.{◌≡◌, true, List, ◌≤◌, length};
ghost use Rattle.fips197.specs.Key.{Key};
ghost use Rattle.state_keys.specs.Limits.{limits};
ghost use Rattle.state_keys.specs.Algorithms.{is_wrapping_size};
ghost use Rattle.state_keys.specs.Kinds.{value_of};
ghost use Rattle.wire_attributes.specs.Tree.{WrapKey};
ghost use Rattle.state.specs.Held.{keys_of};
ghost use Rattle.state.specs.declared.held.Held.{Held};
ghost use Rattle.unwrap_lending.specs.inner.Lending.{LendsHeld};
ghost use Rattle.unwrap_search.specs.inner.Search.{Nonzero, roots_with};
ghost use Rattle.unwrap_tree.specs.inner.Reached.{TreeAnswers};
ghost use Rattle.unwrap_tree.specs.inner.Entries.{HoldsEntries};
ghost use Rattle.unwrap_tree.specs.inner.Source.{EntriesOf};

use held::ReachedKeys;
use source::Source;
use state::held::Held;
use state_keys::kinds::WrappingKey;
use unwrap_paths::links::{Links, links_of};

// Finds the keys that the entries of the KD body `kd` reach, from `zero` as key 0 and from the held keys that `ids` and `block` lend, and
// keeps the links of the entries. These stand where `source` says.
// Refusals 4 to 7 were judged before: all entries stand in one bag, `zero` has the size of a wrapping key, no entry has Key ID 0, and the
// entries are within their limit.
pub fn reach_keys(
    kd: &[u8],
    source: Source,
    zero: WrappingKey,
    ids: &[u32],
    block: &[u8],
) -> ReachedKeys
    requires holds_entries { (l : List WrapKey) × HoldsEntries source.meaning source.place kd.now source.bag l ×
        (length l ≤ limits.wrap_keys) × Nonzero l }
    requires count_value { is_wrapping_size zero.count ≡ true }
    requires key { Key (value_of zero) }
    requires lends_held { (held : Held) × LendsHeld held ids.now block.now }
    ensures { (l : List WrapKey) (held : Held) → HoldsEntries source.meaning source.place kd.now source.bag l → Nonzero l →
        LendsHeld held ids.now block.now →
        TreeAnswers (roots_with (value_of zero) l (keys_of held)) l zero.count zero (keys_of held) result }
{
    let list = entries::entries(kd, source);
    let places = list.places;
    let n = list.count;
    let entries = &places[..n];
    let cells = unwrap_search::search::search(kd, zero, ids, block, entries);
    let links = links_of(entries, &cells);
    if unwrap_conflicts::entries_conflict(entries, &cells) {
        return ReachedKeys {
            conflict: true,
            held: Held::new(),
            links,
        };
    }
    ReachedKeys {
        conflict: false,
        held: held::held_of(entries, &cells),
        links,
    }
}

// Answers the same as `reach_keys`. Without entries nothing is reached, and the held keys are not tried.
pub fn reach_any(
    kd: &[u8],
    source: Option<Source>,
    zero: WrappingKey,
    ids: &[u32],
    block: &[u8],
) -> ReachedKeys
    requires entries_of { (l : List WrapKey) × EntriesOf kd.now source l × (length l ≤ limits.wrap_keys) × Nonzero l }
    requires count_value { is_wrapping_size zero.count ≡ true }
    requires key { Key (value_of zero) }
    requires lends_held { (held : Held) × LendsHeld held ids.now block.now }
    ensures { (l : List WrapKey) (held : Held) → EntriesOf kd.now source l → Nonzero l → LendsHeld held ids.now block.now →
        TreeAnswers (roots_with (value_of zero) l (keys_of held)) l zero.count zero (keys_of held) result }
{
    match source {
        Some(source) => reach_keys(kd, source, zero, ids, block),
        None => ReachedKeys {
            conflict: false,
            held: Held::new(),
            links: Links::none(),
        },
    }
}
