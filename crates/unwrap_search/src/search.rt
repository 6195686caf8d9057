// Searches for the entries that chains from key 0 and from held keys lead to. Each entry is opened at most once, in whatever order the
// entries stand. The schedule of a key is expanded at most once, and only if a waiting entry names the key.
ghost use Rattle.std.specs.Prelude.{◌≡◌, true, false, List, ℕ, ◌≤◌, ◌<◌, length, get_or};
ghost use Rattle.fips197.specs.Key.{Key};
ghost use Rattle.aes.specs.inner.Tables.{decipher_tables};
ghost use Rattle.aes.specs.inner.Schedule.{ExpandsInverse, ExpandedInverse};
ghost use Rattle.state_keys.specs.Limits.{limits};
ghost use Rattle.state_keys.specs.Algorithms.{is_wrapping_size};
ghost use Rattle.wire_attributes.specs.Tree.{WrapKey};
ghost use Rattle.unwrap_search.specs.inner.Entries.{Lists};
ghost use Rattle.state_keys.specs.Kinds.{value_of};
ghost use Rattle.state.specs.Held.{blank_key, keys_of};
ghost use Rattle.state.specs.declared.held.HeldKey.{HeldKey};
ghost use Rattle.state.specs.declared.held.Held.{Held};
ghost use Rattle.unwrap_lending.specs.inner.Lending.{Lends, LendsHeld};
ghost use Rattle.unwrap_search.specs.inner.Search.{AllTried, Unnamed, Finds, Searched, carried_by, KeyFrom, roots_with};

use crate::open::{Cell, Entry, Status, blank, names, pends, try_on_entry};
use aes::{INVERSE_TABLE_WORDS, InverseSchedule, expand_inverse, inverse_tables};
use state_keys::kinds::WrappingKey;
use state_keys::limits::WRAP_KEYS;
use unwrap_lending::value_at;

// Whether one of `entries` waits for the key `id`. The cell of each entry stands at its place in `cells`.
fn is_named(id: u32, entries: &[Entry], cells: &[Cell]) -> bool
    requires { length entries.now ≤ length cells.now }
    ensures { result ≡ false → Unnamed id entries.now cells.now (length entries.now) }
{
    entries.iter().zip(cells).any(|(e, c)| names(id, e, c))
}

// Tries the key `id`, whose schedule is `schedule`, on `entries`, and puts into `cells` what becomes of each. `size` is the octet count
// that a wrapping key must have.
fn try_on_all(
    frame: &[u8],
    tables: &[u32; INVERSE_TABLE_WORDS],
    schedule: InverseSchedule,
    size: usize,
    id: u32,
    entries: &[Entry],
    cells: &mut [Cell],
)
    requires entries_le_cells { length entries.now ≤ length cells.old }
    requires tables_value { (tables.now ≡ decipher_tables) × ExpandedInverse schedule.words }
    requires size_value { is_wrapping_size size ≡ true }
    requires lists { (l : List WrapKey) × Lists frame.now entries.now (length entries.now) l }
    ensures { (l : List WrapKey) (v : List ℕ) → Lists frame.now entries.now (length entries.now) l →
        ExpandsInverse v schedule.words → AllTried id v size l cells.old cells.new }
{
    for (i, e) in entries.iter().enumerate() {
        cells[i] = try_on_entry(frame, tables, schedule, size, id, e, &cells[i]);
    }
}

// Tries `key`, of Key ID `id`, on `entries`, and puts into `cells` what becomes of each. The schedule is expanded only if a waiting entry
// names the key.
fn try_key(
    frame: &[u8],
    tables: &[u32; INVERSE_TABLE_WORDS],
    key: WrappingKey,
    size: usize,
    id: u32,
    entries: &[Entry],
    cells: &mut [Cell],
)
    requires entries_le_cells { length entries.now ≤ length cells.old }
    requires tables_value { (tables.now ≡ decipher_tables) × (is_wrapping_size key.count ≡ true) }
    requires size_value { is_wrapping_size size ≡ true }
    requires lists { (l : List WrapKey) × Lists frame.now entries.now (length entries.now) l }
    ensures { (l : List WrapKey) → Lists frame.now entries.now (length entries.now) l →
        AllTried id (value_of key) size l cells.old cells.new }
{
    if is_named(id, entries, cells) {
        let octets = key.octets;
        let schedule = expand_inverse(tables, &octets[..key.count]);
        try_on_all(frame, tables, schedule, size, id, entries, cells);
    }
}

// Finds the first of `cells` whose key is yet to be tried on the entries.
fn first_pending(cells: &[Cell]) -> Option<usize>
    ensures { Finds cells.now (length cells.now) result }
{
    cells.iter().position(|c| pends(c))
}

// Whether one of `entries` has the Key ID `id`.
pub fn is_carried(id: u32, entries: &[Entry]) -> bool
    ensures { (frame : List ℕ) (l : List WrapKey) → Lists frame entries.now (length entries.now) l → result ≡ carried_by l id }
{
    entries.iter().any(|e| e.id == id)
}

// Makes the wrapping key whose value stands at place `i` of `block`.
fn key_at(i: usize, block: &[u8]) -> WrappingKey
    requires { (keys : List HeldKey) × (ids : List ℕ) × Lends keys ids block.now × (i < length keys) }
    ensures { (keys : List HeldKey) (ids : List ℕ) → Lends keys ids block.now → i < length keys →
        is_wrapping_size (get_or keys i blank_key).key.count ≡ true → KeyFrom (get_or keys i blank_key).key result }
{
    WrappingKey::new(value_at(i, block)).unwrap_or(WrappingKey::blank())
}

// Opens `entries` along the chains that start with `lent` as key 0, or with one of the held keys that `ids` and `block` lend, if no entry
// carries its Key ID. Answers the cell of each entry. One key is tried at a time: key 0, then the held keys, then those that entries opened
// to.
pub fn search(
    frame: &[u8],
    lent: WrappingKey,
    ids: &[u32],
    block: &[u8],
    entries: &[Entry],
) -> [Cell; WRAP_KEYS]
    requires count_value { is_wrapping_size lent.count ≡ true }
    requires key { Key (value_of lent) }
    requires lists { (l : List WrapKey) × Lists frame.now entries.now (length entries.now) l }
    requires lends_held { (held : Held) × LendsHeld held ids.now block.now }
    ensures { (l : List WrapKey) (held : Held) → Lists frame.now entries.now (length entries.now) l →
        LendsHeld held ids.now block.now →
        Searched (roots_with (value_of lent) l (keys_of held)) l lent.count result }
{
    let size = lent.count;
    let tables = inverse_tables();
    let mut cells = [blank(); WRAP_KEYS];
    try_key(frame, &tables, lent, size, 0, entries, &mut cells);
    for (i, id) in ids.iter().enumerate() {
        if !is_carried(*id, entries) {
            let key = key_at(i, block);
            try_key(frame, &tables, key, size, *id, entries, &mut cells);
        }
    }
    while let Some(j) = first_pending(&cells[..entries.len()]) {
        let key = cells[j].key;
        cells[j].status = Status::Done;
        try_key(
            frame,
            &tables,
            key,
            size,
            entries[j].id,
            entries,
            &mut cells,
        );
    }
    cells
}
