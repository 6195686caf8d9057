// Opens the copies of an announced SA (its SA_KEY attributes) under the keys that their KWK IDs name, in one pass. Each copy is opened at
// most once. The schedule of key 0 is given; another key is expanded once for copies that name it one after the other.
// Internal: crates of this repository alone call it.
#![tactic(auto)]

pub mod answer;
pub mod ready;

ghost use Rattle.std.specs.Prelude.{◌≡◌, true, List, ℕ, ◌≤◌, length};
ghost use Rattle.state_keys.specs.Rooms.{sa_room};
ghost use Rattle.aes.specs.inner.Tables.{decipher_tables};
ghost use Rattle.aes.specs.inner.Schedule.{ExpandsInverse, ExpandedInverse};
ghost use Rattle.wire_attributes.specs.Tree.{WrapKey, sa_key_of};
ghost use Rattle.wire_attributes.specs.Layout.{attributes};
ghost use Rattle.wire_readers.specs.inner.Values.{is_whole};
ghost use Rattle.rules_chains.specs.Chain.{Root};
ghost use Rattle.state_keys.specs.declared.kinds.WrappingKey.{WrappingKey};
ghost use Rattle.state_keys.specs.Kinds.{value_of};
ghost use Rattle.state.specs.declared.held.HeldKey.{HeldKey};
ghost use Rattle.unwrap_lending.specs.inner.Lending.{LendsTwo};
ghost use Rattle.unwrap_copies.specs.inner.Known.{Agrees};
ghost use Rattle.unwrap_copies.specs.inner.Named.{try_for};
ghost use Rattle.unwrap_copies.specs.inner.Ready.{IsExpanded, IsReady};
ghost use Rattle.unwrap_copies.specs.inner.Tries.{CopyTells};
ghost use Rattle.unwrap_copies.specs.inner.Answer.{announced_in};
ghost use Rattle.unwrap_copies.specs.inner.Openers.{CopiesAnswer};

use aes::{INVERSE_TABLE_WORDS, InverseSchedule};
use answer::{Copied, CopyOpened, merge, no_openers, note, nothing, open_copy};
use ikev2_numbers::{KWK_ID_AT, WRAPPED_AT};
use octets::numbers::be32_at;
use ready::{ReadyKey, key_zero, ready_for};
use wire_attributes::attribute_value;
use wire_attributes::tables::{Meaning, Place};
use wire_readers::values::next_attribute;

// Opens one copy, the value of an SA_KEY, under the key that its KWK ID names. If there is no such key, it is not tried.
fn try_copy(
    copy: &[u8],
    need: usize,
    tables: &[u32; INVERSE_TABLE_WORDS],
    key: ReadyKey,
) -> CopyOpened
    requires in_bounds { (8 ≤ length copy.now) × (need ≤ sa_room) }
    requires tables_value { (tables.now ≡ decipher_tables) × IsExpanded key.schedule }
    ensures { (v : List ℕ) (new old : List HeldKey) → IsReady v new old key → (sa_key_of copy.now).kwk_id ≡ key.id →
        CopyTells (try_for v new old (sa_key_of copy.now)) need result }
{
    match key.schedule {
        Some(schedule) => open_copy(tables, schedule, &copy[WRAPPED_AT..], need),
        None => nothing(),
    }
}

// Opens the copies of one announced SA. `a` are the attributes of its Group Key Bag, `place` is the sort of that bag, and `need` is the
// octet count that its policy needs. `schedule` is that of key 0. `carried` and `fresh` lend the frame's own keys, `ids` and `block` the
// held ones that a KWK ID can name. Answers also the KWK IDs of the copies that open.
pub fn copies<'a>(
    place: Place,
    a: &[u8],
    need: usize,
    tables: &[u32; INVERSE_TABLE_WORDS],
    schedule: InverseSchedule,
    carried: &[u32],
    fresh: &'a [u8],
    ids: &[u32],
    block: &'a [u8],
) -> Copied
    requires a_value { is_whole (attributes place 0 a.now) ≡ true }
    requires need_le_sa_room { need ≤ sa_room }
    requires tables_value { (tables.now ≡ decipher_tables) × ExpandedInverse schedule.words }
    requires lends_two { (new : List HeldKey) × (old : List HeldKey) × LendsTwo new old carried.now fresh.now ids.now block.now }
    ensures { (roots : List Root) (entries : List WrapKey) (size : ℕ) (zero : WrappingKey) (new old : List HeldKey) →
        ExpandsInverse (value_of zero) schedule.words →
        LendsTwo new old carried.now fresh.now ids.now block.now →
        Agrees roots entries size zero new old → CopiesAnswer roots entries size (announced_in place a.now need) result }
{
    let mut known = nothing();
    let mut openers = no_openers();
    let mut last = key_zero(schedule);
    let mut at = 0;
    while let Some(x) = next_attribute(Meaning::SaKey, place, a, at) {
        let copy = attribute_value(a, x.start);
        let kwk = be32_at(copy, KWK_ID_AT);
        let key = ready_for(kwk, last, tables, schedule, carried, fresh, ids, block);
        last = key;
        let one = try_copy(copy, need, tables, key);
        let found = one.found;
        openers = note(openers, found, kwk);
        known = merge(known, one);
        at = x.end;
    }
    Copied {
        opened: known,
        openers,
    }
}
