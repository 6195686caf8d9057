// What is kept of a search once its cells are gone: the numbers of the entries, array by array, and their levels.
ghost use Rattle.std.specs.Prelude.{◌≡◌, ◌≤◌, length};
ghost use Rattle.state_keys.specs.Limits.{limits};
ghost use Rattle.unwrap_paths.specs.inner.Links.{mark_of, Numbered};
ghost use Rattle.unwrap_paths.specs.inner.Kept.{LinksKept, LinksFit};

use crate::levels::{Mark, levels};
use state_keys::limits::WRAP_KEYS;
use unwrap_conflicts::is_done;
use unwrap_search::open::{Cell, Entry};
use unwrap_search::search::is_carried;

// Key IDs, KWK IDs and levels of the entries, by their places. The entries are the first `count`.
// Kept as an array with its count, since memory is fixed.
#[derive(Clone, Copy)]
pub struct Links {
    pub ids: [u32; WRAP_KEYS],
    pub kwks: [u32; WRAP_KEYS],
    pub levels: [usize; WRAP_KEYS],
    pub count: usize,
}

impl Links {
    // Makes the links of no entry.
    pub fn none() -> Links
        ensures fit { LinksFit result }
        ensures empty { result.count ≡ 0 }
    {
        Links {
            ids: [0u32; WRAP_KEYS],
            kwks: [0u32; WRAP_KEYS],
            levels: [0usize; WRAP_KEYS],
            count: 0,
        }
    }
}

// Key IDs, KWK IDs and marks of the entries, by their places.
#[derive(Clone, Copy)]
pub struct LinkNumbers {
    pub ids: [u32; WRAP_KEYS],
    pub kwks: [u32; WRAP_KEYS],
    pub marks: [Mark; WRAP_KEYS],
}

// The mark of an entry with the cell `c`. It opened under a key that chains start with if no entry carries the key that it names
// (`carried`).
fn mark(c: Cell, carried: bool) -> Mark
    ensures { result ≡ mark_of c carried }
{
    if !is_done(c) {
        return Mark::NotOpened;
    }
    if carried {
        Mark::Opened
    } else {
        Mark::OpenedFirst
    }
}

// Reads the numbers and the marks of `entries` off their cells, the first of `cells`.
fn numbers_of(entries: &[Entry], cells: &[Cell]) -> LinkNumbers
    requires { (length entries.now ≤ limits.wrap_keys) × (length entries.now ≤ length cells.now) }
    ensures { Numbered (length entries.now) entries.now cells.now result.ids result.kwks result.marks }
{
    let mut ids = [0u32; WRAP_KEYS];
    let mut kwks = [0u32; WRAP_KEYS];
    let mut marks = [Mark::NotOpened; WRAP_KEYS];
    for (i, e) in entries.iter().enumerate() {
        ids[i] = e.id;
        kwks[i] = e.kwk;
        marks[i] = mark(cells[i], is_carried(e.kwk, entries));
    }
    LinkNumbers { ids, kwks, marks }
}

// Keeps of a search over `entries` what the way back reads: their numbers and their levels. Their cells are the first of `cells`.
pub fn links_of(entries: &[Entry], cells: &[Cell]) -> Links
    requires { (length entries.now ≤ limits.wrap_keys) × (length entries.now ≤ length cells.now) }
    ensures { LinksKept (length entries.now) entries.now cells.now result }
{
    let LinkNumbers { ids, kwks, marks } = numbers_of(entries, cells);
    let count = entries.len();
    let levels = levels(&ids, &kwks, &marks, count);
    Links {
        ids,
        kwks,
        levels,
        count,
    }
}
