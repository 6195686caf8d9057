// Opens one copy of an SA's key, and merges the results of several copies.
ghost use Rattle.std.specs.Prelude.{◌≡◌, List, [], ◌∷◌, ◌++◌, ℕ, ◌≤◌, take};
ghost use Rattle.state_keys.specs.Rooms.{sa_room};
ghost use Rattle.aes.specs.inner.Tables.{decipher_tables};
ghost use Rattle.aes.specs.inner.Schedule.{ExpandsInverse, ExpandedInverse};
ghost use Rattle.state_keys.specs.Limits.{limits};
ghost use Rattle.unwrap_copies.specs.inner.Openers.{openers_of, Noted};
ghost use Rattle.unwrap_copies.specs.inner.Tries.{Try, CopyTells};
ghost use Rattle.unwrap_copies.specs.declared.answer.CopyFound.TheVariants as found;

use aes::{INVERSE_TABLE_WORDS, InverseSchedule};
use keywrap::open_under;
use state_keys::limits::SA_KEYS;
use state_keys::rooms::SA_OCTETS;

// `Nothing`: no copy opens. `Key`: some open, all of these to one value of the right size. `Conflict`: refusal 8 holds of the copies.
#[derive(Clone, Copy, PartialEq)]
pub enum CopyFound {
    Nothing,
    Key,
    Conflict,
}

// The result of opening copies. With `Key`, the value is the first `count` of `octets`, with blanks behind it.
// Kept as an array with its count, since memory is fixed.
#[derive(Clone, Copy)]
pub struct CopyOpened {
    pub found: CopyFound,
    pub octets: [u8; SA_OCTETS],
    pub count: usize,
}

// The KWK IDs of copies that opened, the first `count` of `ids`.
// Kept as an array with its count, since memory is fixed.
#[derive(Clone, Copy)]
pub struct Openers {
    pub ids: [u32; SA_KEYS],
    pub count: usize,
}

// The result of opening all copies of an SA's key, and the KWK IDs of those that opened.
#[derive(Clone, Copy)]
pub struct Copied {
    pub opened: CopyOpened,
    pub openers: Openers,
}

// Answers that no copy opened so far.
pub fn no_openers() -> Openers
    ensures { result.count ≡ 0 }
{
    Openers {
        ids: [0u32; SA_KEYS],
        count: 0,
    }
}

// Adds to `o` the KWK ID `kwk` of a copy, if the result `found` of the copy says that it opened. A full list stays as it is.
pub(crate) fn note(o: Openers, found: CopyFound, kwk: u32) -> Openers
    ensures { Noted found kwk o result }
{
    if found != CopyFound::Key || o.count >= SA_KEYS {
        return o;
    }
    let n = o.count;
    let mut ids = o.ids;
    ids[n] = kwk;
    Openers { ids, count: n + 1 }
}

// Answers how many of the KWK IDs of `o` its list takes: the first so many of `ids` are the list.
pub fn openers_listed(o: Openers) -> usize
    ensures { (result ≤ limits.sa_keys) × (take result o.ids ≡ openers_of o) }
{
    o.count.min(SA_KEYS)
}

// Answers that no copy opened, or that none was tried.
pub(crate) fn nothing() -> CopyOpened
    ensures { result.found ≡ found.Nothing }
{
    CopyOpened {
        found: CopyFound::Nothing,
        octets: [0u8; SA_OCTETS],
        count: 0,
    }
}

// Answers that refusal 8 holds of the copies.
fn conflict() -> CopyOpened
    ensures { result.found ≡ found.Conflict }
{
    CopyOpened {
        found: CopyFound::Conflict,
        octets: [0u8; SA_OCTETS],
        count: 0,
    }
}

// Merges two results with a value each. Two different values are a conflict.
fn merge_values(a: CopyOpened, b: CopyOpened) -> CopyOpened
    requires { (a.found ≡ found.Key) × (b.found ≡ found.Key) }
    ensures { (need : ℕ) (l m : List Try) → CopyTells l need a → CopyTells m need b → CopyTells (l ++ m) need result }
{
    if a.octets == b.octets { a } else { conflict() }
}

// Merges the results of two groups of copies. A conflict in either, or two different values, is a conflict.
pub(crate) fn merge(a: CopyOpened, b: CopyOpened) -> CopyOpened
    ensures { (need : ℕ) (l m : List Try) → CopyTells l need a → CopyTells m need b → CopyTells (l ++ m) need result }
{
    let f = a.found;
    let g = b.found;
    match f {
        CopyFound::Nothing => b,
        CopyFound::Conflict => a,
        CopyFound::Key => match g {
            CopyFound::Nothing => a,
            CopyFound::Conflict => b,
            CopyFound::Key => merge_values(a, b),
        },
    }
}

// Opens the octets `wrapped` of one copy under the key of `schedule`. The size of a copy is that of the value it opens to: if this is not
// `need`, the copy is a conflict.
pub(crate) fn open_copy(
    tables: &[u32; INVERSE_TABLE_WORDS],
    schedule: InverseSchedule,
    wrapped: &[u8],
    need: usize,
) -> CopyOpened
    requires tables_value { (tables.now ≡ decipher_tables) × ExpandedInverse schedule.words }
    requires need_le_sa_room { need ≤ sa_room }
    ensures { (v : List ℕ) → ExpandsInverse v schedule.words →
        CopyTells (record { key = v; wrapped = wrapped.now } ∷ []) need result }
{
    let Some(opened) = open_under(tables, schedule, wrapped) else {
        return nothing();
    };
    let size = opened.count;
    if size != need {
        return conflict();
    }
    let mut octets = [0u8; SA_OCTETS];
    octets::copying::copy(&opened.octets[..need], &mut octets);
    CopyOpened {
        found: CopyFound::Key,
        octets,
        count: need,
    }
}
