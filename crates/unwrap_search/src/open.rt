// Entries (WRAP_KEYs of a frame), and the opening of one entry under one key.
ghost use Rattle.std.specs.Prelude.{◌≡◌, true, List, ℕ, ◌≤◌, length};
ghost use Rattle.aes.specs.inner.Tables.{decipher_tables};
ghost use Rattle.aes.specs.inner.Schedule.{ExpandsInverse, ExpandedInverse};
ghost use Rattle.state_keys.specs.Algorithms.{is_wrapping_size};
ghost use Rattle.wire_attributes.specs.Tree.{WrapKey};
ghost use Rattle.unwrap_search.specs.inner.Entries.{IsEntry};
ghost use Rattle.unwrap_search.specs.inner.Opened.{Landed, Tried, no_cell, waiting, pending, naming};

use aes::{INVERSE_TABLE_WORDS, InverseSchedule};
use keywrap::open_under;
use state_keys::kinds::WrappingKey;
use state_keys::rooms::WRAPPING_KEY;

// A wrapped key: its Key ID, its KWK ID, and where its wrapped octets stand, from `start` up to `end`.
#[derive(Clone, Copy)]
pub struct Entry {
    pub id: u32,
    pub kwk: u32,
    pub start: usize,
    pub end: usize,
}

// What became of an entry. `Waiting`: its wrapping key is not known. `Failed`: it did not open. `Wrong`: it opened to a wrong size.
// `Pending`: it opened, and its own key is yet to be tried on the other entries. `Done`: it opened, and its own key was tried.
#[derive(Clone, Copy, PartialEq)]
pub enum Status {
    Waiting,
    Failed,
    Wrong,
    Pending,
    Done,
}

// What the search knows of an entry: its status and, if that is `Pending` or `Done`, the key that it opened to; else a blank key.
#[derive(Clone, Copy)]
pub struct Cell {
    pub status: Status,
    pub key: WrappingKey,
}

// Whether the entry of `c` was not opened yet.
pub(crate) fn waits(c: &Cell) -> bool
    ensures { result ≡ waiting c.now.status }
{
    c.status == Status::Waiting
}

// Whether the key of `c` is yet to be tried on the entries.
pub(crate) fn pends(c: &Cell) -> bool
    ensures { result ≡ pending c.now.status }
{
    c.status == Status::Pending
}

// Answers the cell of an entry that was not opened yet.
pub(crate) fn blank() -> Cell
    ensures { result ≡ no_cell }
{
    let key = WrappingKey {
        octets: [0u8; WRAPPING_KEY],
        count: 0,
    };
    Cell {
        status: Status::Waiting,
        key,
    }
}

// Opens the octets `wrapped` of an entry under the key of `schedule`. If they open to other than `size` octets, the cell is `Wrong`.
pub(crate) fn open_entry(
    tables: &[u32; INVERSE_TABLE_WORDS],
    schedule: InverseSchedule,
    size: usize,
    wrapped: &[u8],
) -> Cell
    requires tables_value { (tables.now ≡ decipher_tables) × ExpandedInverse schedule.words }
    requires size_value { is_wrapping_size size ≡ true }
    ensures { (v : List ℕ) → ExpandsInverse v schedule.words → Landed v size wrapped.now result }
{
    let none = WrappingKey {
        octets: [0u8; WRAPPING_KEY],
        count: 0,
    };
    let Some(opened) = open_under(tables, schedule, wrapped) else {
        return Cell {
            status: Status::Failed,
            key: none,
        };
    };
    let count = opened.count;
    if count != size {
        return Cell {
            status: Status::Wrong,
            key: none,
        };
    }
    let key = WrappingKey::new(&opened.octets[..size]).unwrap_or(none);
    Cell {
        status: Status::Pending,
        key,
    }
}

// Whether the entry `e`, whose cell is `c`, waits for the key `id`.
pub(crate) fn names(id: u32, e: &Entry, c: &Cell) -> bool
    ensures { result ≡ naming id e.now c.now }
{
    e.kwk == id && waits(c)
}

// Opens the entry `e` under the key `id`, whose schedule is `schedule`, if it waits for that key. Answers its cell afterwards.
pub(crate) fn try_on_entry(
    frame: &[u8],
    tables: &[u32; INVERSE_TABLE_WORDS],
    schedule: InverseSchedule,
    size: usize,
    id: u32,
    e: &Entry,
    c: &Cell,
) -> Cell
    requires tables_value { (tables.now ≡ decipher_tables) × ExpandedInverse schedule.words }
    requires size_value { is_wrapping_size size ≡ true }
    requires start_le_end { (e.now.start ≤ e.now.end) × (e.now.end ≤ length frame.now) }
    ensures { (w : WrapKey) (v : List ℕ) → IsEntry frame.now e.now w → ExpandsInverse v schedule.words →
        Tried id v size w c.now result }
{
    if !names(id, e, c) {
        return *c;
    }
    open_entry(tables, schedule, size, &frame[e.start..e.end])
}
