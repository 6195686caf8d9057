// Makes the list of all keys that a search reached.
ghost use Rattle.std.specs.Prelude.{◌≡◌, true, List, ℕ, ◌≤◌, length};
ghost use Rattle.wire_attributes.specs.Tree.{WrapKey};
ghost use Rattle.state_keys.specs.Algorithms.{is_wrapping_size};
ghost use Rattle.state_keys.specs.Limits.{limits};
ghost use Rattle.state.specs.Held.{held_formed};
ghost use Rattle.rules_chains.specs.Chain.{Root};
ghost use Rattle.rules_chains.specs.Refusals.{EntriesConflict};
ghost use Rattle.unwrap_search.specs.inner.Entries.{Lists};
ghost use Rattle.unwrap_search.specs.inner.Search.{Searched, Nonzero};
ghost use Rattle.unwrap_tree.specs.inner.Joins.{Joins};
ghost use Rattle.unwrap_tree.specs.inner.AllReached.{HeldAre};

use state::held::{Held, HeldKey};
use unwrap_conflicts::is_done;
use unwrap_paths::links::Links;
use unwrap_search::open::{Cell, Entry};

// Whether refusal 8 holds of the entries. If it does not: the keys that they reach, and the links of the entries, which the working key
// path is read off. With a conflict the list is empty. Kept as a flag beside them: the caller goes on with the links under a conflict too,
// because a second return of it would take 30 kB of stack.
#[derive(Clone, Copy)]
pub struct ReachedKeys {
    pub held: Held,
    pub links: Links,
    pub conflict: bool,
}

// Adds the key of the entry `e`, whose cell is `c`, to `held`, if the entry was reached and its Key ID is not in the list. Two entries may
// give one key; where refusal 8 does not hold, they give it one value.
fn with_cell(held: Held, e: Entry, c: Cell) -> Held
    ensures { Joins e c held result }
{
    let id = e.id;
    if is_done(c) && held.find(id).is_none() {
        let key = c.key;
        return held.enter(HeldKey { id, key });
    }
    held
}

// Makes the list of the keys that `entries` reach. The cells of their search are the first of `cells`.
pub fn held_of(entries: &[Entry], cells: &[Cell]) -> Held
    requires { (length entries.now ≤ limits.wrap_keys) × (length entries.now ≤ length cells.now) }
    ensures { (frame : List ℕ) (roots : List Root) (l : List WrapKey) (size : ℕ) → Lists frame entries.now (length entries.now) l →
        Searched roots l size cells.now → Nonzero l → is_wrapping_size size ≡ true → (EntriesConflict roots l size → ⊥) →
        HeldAre roots l size limits result × (held_formed limits result ≡ true) }
{
    let mut held = Held::new();
    for (i, e) in entries.iter().enumerate() {
        held = with_cell(held, *e, cells[i]);
    }
    held
}
