// Makes the key ready that a copy names. A key that copies name one after the other is expanded once.
ghost use Rattle.std.specs.Prelude.{◌≡◌, List, ℕ};
ghost use Rattle.aes.specs.inner.Tables.{decipher_tables};
ghost use Rattle.aes.specs.inner.Schedule.{ExpandsInverse, ExpandedInverse};
ghost use Rattle.state.specs.declared.held.HeldKey.{HeldKey};
ghost use Rattle.unwrap_lending.specs.inner.Lending.{LendsTwo};
ghost use Rattle.unwrap_copies.specs.inner.Ready.{IsExpanded, IsReady};

use aes::{INVERSE_TABLE_WORDS, InverseSchedule, expand_inverse};
use unwrap_lending::octets_named;

// The key that the KWK ID `id` names, by its schedule, or `None` if there is no such key.
#[derive(Clone, Copy)]
pub struct ReadyKey {
    pub id: u32,
    pub schedule: Option<InverseSchedule>,
}

// Answers key 0, whose schedule is `schedule`.
pub(crate) fn key_zero(schedule: InverseSchedule) -> ReadyKey
    ensures by_index { (v : List ℕ) (new old : List HeldKey) → ExpandsInverse v schedule.words → IsReady v new old result }
    ensures id_value { (result.id ≡ 0) × (result.schedule ≡ Some schedule) }
{
    ReadyKey {
        id: 0,
        schedule: Some(schedule),
    }
}

// Answers the key that the KWK ID `kwk` names: key 0, whose schedule is `schedule`, or a key that is lent: the frame's own by `carried` and
// `fresh`, the held ones by `ids` and `block`. `last` is the key that was answered last.
pub(crate) fn ready_for<'a>(
    kwk: u32,
    last: ReadyKey,
    tables: &[u32; INVERSE_TABLE_WORDS],
    schedule: InverseSchedule,
    carried: &[u32],
    fresh: &'a [u8],
    ids: &[u32],
    block: &'a [u8],
) -> ReadyKey
    requires tables_value { (tables.now ≡ decipher_tables) × ExpandedInverse schedule.words × IsExpanded last.schedule }
    requires lends_two { (new : List HeldKey) × (old : List HeldKey) × LendsTwo new old carried.now fresh.now ids.now block.now }
    ensures id_value { (result.id ≡ kwk) × IsExpanded result.schedule }
    ensures by_index { (v : List ℕ) (new old : List HeldKey) → ExpandsInverse v schedule.words →
        LendsTwo new old carried.now fresh.now ids.now block.now →
        IsReady v new old last → IsReady v new old result }
{
    if kwk == last.id {
        return last;
    }
    if kwk == 0 {
        return key_zero(schedule);
    }
    let key = octets_named(kwk, fresh, carried, block, ids);
    if key.is_empty() {
        return ReadyKey {
            id: kwk,
            schedule: None,
        };
    }
    let expanded = expand_inverse(tables, key);
    ReadyKey {
        id: kwk,
        schedule: Some(expanded),
    }
}
