// Judges refusal 8 of document 01 for the entries of a registration, by the cells of their search: an entry opened to a wrong size, or two
// entries give one key two values.
// Internal: crates of this repository alone call it.
#![tactic(auto)]

ghost use Rattle.std.specs.Prelude.{◌≡◌, List, ℕ, ◌≤◌, length};
ghost use Rattle.wire_attributes.specs.Tree.{WrapKey};
ghost use Rattle.rules_chains.specs.Chain.{Root};
ghost use Rattle.rules_chains.specs.Refusals.{EntriesConflict};
ghost use Rattle.unwrap_search.specs.inner.Entries.{Lists};
ghost use Rattle.unwrap_search.specs.inner.Search.{Searched, Nonzero};
ghost use Rattle.unwrap_conflicts.specs.inner.Values.{Decides, Clash, ClashAmong, AnyClash, AnyWrong, is_done};

use unwrap_search::open::{Cell, Entry, Status};

// Whether the entry of `c` was reached, and its key was tried on the other entries.
pub fn is_done(c: Cell) -> bool
    ensures { result ≡ is_done c.status }
{
    c.status == Status::Done
}

// Whether the entries `e` and `f`, whose cells are `c` and `d`, give one key two values.
fn clash(e: &Entry, c: &Cell, f: &Entry, d: &Cell) -> bool
    ensures { Decides result (Clash e.now c.now f.now d.now) }
{
    e.id == f.id && c.status == Status::Done && d.status == Status::Done && c.key != d.key
}

// Whether the entry `e`, whose cell is `c`, and one of `entries` give one key two values. The cells of these are the first of `cells`.
fn clashes(e: &Entry, c: &Cell, entries: &[Entry], cells: &[Cell]) -> bool
    requires { length entries.now ≤ length cells.now }
    ensures { Decides result (ClashAmong e.now c.now entries.now cells.now (length entries.now)) }
{
    entries.iter().zip(cells).any(|(f, d)| clash(e, c, f, d))
}

// Whether any two of `entries` give one key two values. Their cells are the first of `cells`.
pub fn any_clash(entries: &[Entry], cells: &[Cell]) -> bool
    requires { length entries.now ≤ length cells.now }
    ensures { Decides result (AnyClash entries.now cells.now (length entries.now)) }
{
    entries
        .iter()
        .zip(cells)
        .any(|(e, c)| clashes(e, c, entries, cells))
}

// Whether one of the entries of `cells` opened to a wrong size.
pub fn any_wrong(cells: &[Cell]) -> bool
    ensures { Decides result (AnyWrong cells.now (length cells.now)) }
{
    cells.iter().any(|c| c.status == Status::Wrong)
}

// Whether refusal 8 holds of `entries`. The cells of their search are the first of `cells`.
pub fn entries_conflict(entries: &[Entry], cells: &[Cell]) -> bool
    requires { length entries.now ≤ length cells.now }
    ensures { (frame : List ℕ) (roots : List Root) (l : List WrapKey) (size : ℕ) → Lists frame entries.now (length entries.now) l →
        Searched roots l size cells.now → Nonzero l → Decides result (EntriesConflict roots l size) }
{
    any_wrong(&cells[..entries.len()]) || any_clash(entries, cells)
}
