// Levels, breadth first: how many entries the shortest chains pass that end with an entry. Entries are given by their Key IDs, their KWK
// IDs and marks. Each key is tried once on the other entries, the keys of the lowest level first.
ghost use Rattle.std.specs.Prelude.{◌≡◌, ℕ, ◌≤◌, ◌<◌, length, map};
ghost use Rattle.octets.specs.Numbers.{oct};
ghost use Rattle.state_keys.specs.Limits.{limits};
ghost use Rattle.unwrap_paths.specs.inner.Code.{opens, mark_of_octet, mark_at, first_level, FindsLeast, next_level, HasLevels};

use state_keys::limits::WRAP_KEYS;

// What the search made of an entry.
#[derive(Clone, Copy, PartialEq, Eq)]
pub enum Mark {
    // it did not open, or no chain ends with it
    NotOpened,
    // it opened under the key of another entry
    Opened,
    // it opened under a key that chains start with
    OpenedFirst,
}

impl Mark {
    fn opened(self) -> bool
        ensures { result ≡ opens self }
    {
        self != Mark::NotOpened
    }

    // The level of such an entry before any key was tried: 0 stands for none.
    fn first_level(self) -> usize
        ensures { result ≡ first_level self }
    {
        match self {
            Mark::OpenedFirst => 1,
            Mark::Opened => 0,
            Mark::NotOpened => 0,
        }
    }
}

// Reads the mark that an octet stands for: 0 did not open, 2 opened under a key that chains start with, any other octet opened.
impl From<u8> for Mark {
    ghost from_gives = { λ octet mark. mark ≡ mark_of_octet octet };

    fn from(octet: u8) -> Mark {
        match octet {
            0 => Mark::NotOpened,
            2 => Mark::OpenedFirst,
            _ => Mark::Opened,
        }
    }
}

// Reads the marks of the first n entries off what stands for them.
fn marks_of<M: Copy + Into<Mark>>(given: &[M], n: usize) -> [Mark; WRAP_KEYS]
    requires n_le_wrap_keys { n ≤ limits.wrap_keys }
    requires n_in_bounds { n ≤ length given.now }
    ensures { (h : M → Mark) → ((x : M) (y : Mark) → M.converts x y → y ≡ h x) → (i : ℕ) → i < n →
        mark_at result i ≡ mark_at (map h given.now) i }
{
    let mut out = [Mark::NotOpened; WRAP_KEYS];
    for i in 0..n {
        out[i] = given[i].into();
    }
    out
}

// The levels of the entries under a key that chains start with.
fn first_levels(marks: &[Mark], n: usize) -> [usize; WRAP_KEYS]
    requires n_le_wrap_keys { n ≤ limits.wrap_keys }
    requires n_in_bounds { n ≤ length marks.now }
    ensures { (i : ℕ) → i < n → oct result i ≡ first_level (mark_at marks.now i) }
{
    let mut out = [0usize; WRAP_KEYS];
    for i in 0..n {
        out[i] = marks[i].first_level();
    }
    out
}

// The entry of the lowest level whose key was not tried on the others yet. Kept as a loop: the proof of `(0..n).filter(..).min_by_key(..)`
// leaves open which entry it answers.
fn lowest(levels: &[usize; WRAP_KEYS], tried: &[bool; WRAP_KEYS], n: usize) -> Option<usize>
    requires { n ≤ limits.wrap_keys }
    ensures { FindsLeast n levels.now tried.now result }
{
    let mut low: Option<usize> = None;
    for i in 0..n {
        if !tried[i] && 0 < levels[i] && low.is_none_or(|at| levels[i] < levels[at]) {
            low = Some(i);
        }
    }
    low
}

// The level of an entry after a key of this level and ID was tried on it.
fn next_level(level: usize, mark: Mark, kwk: u32, id: u32, of: usize) -> usize
    requires { of ≤ limits.wrap_keys }
    ensures { result ≡ next_level level mark kwk id of }
{
    if level == 0 && mark.opened() && kwk == id {
        return of + 1;
    }
    level
}

// The levels after the key of the entry at j was tried on the others.
fn spread(
    ids: &[u32],
    kwks: &[u32],
    marks: &[Mark],
    levels: [usize; WRAP_KEYS],
    n: usize,
    j: usize,
) -> [usize; WRAP_KEYS]
    requires n_le_wrap_keys { (n ≤ limits.wrap_keys) × (n ≤ length ids.now) × (n ≤ length kwks.now) × (n ≤ length marks.now) }
    requires j_lt_n { (j < n) × (oct levels j ≤ limits.wrap_keys) }
    ensures { (i : ℕ) → i < n → oct result i ≡
        next_level (oct levels i) (mark_at marks.now i) (oct kwks.now i) (oct ids.now j) (oct levels j) }
{
    let id = ids[j];
    let of = levels[j];
    let mut out = levels;
    for i in 0..n {
        out[i] = next_level(out[i], marks[i], kwks[i], id, of);
    }
    out
}

// Computes the level of each entry that a chain reaches, and 0 for the others, by the marks of the entries.
fn levels_by_marks(ids: &[u32], kwks: &[u32], marks: &[Mark], n: usize) -> [usize; WRAP_KEYS]
    requires { (n ≤ limits.wrap_keys) × (n ≤ length ids.now) × (n ≤ length kwks.now) × (n ≤ length marks.now) }
    ensures { HasLevels n ids.now kwks.now marks.now result }
{
    let mut levels = first_levels(marks, n);
    let mut tried = [false; WRAP_KEYS];
    while let Some(j) = lowest(&levels, &tried, n) {
        tried[j] = true;
        levels = spread(ids, kwks, marks, levels, n, j);
    }
    levels
}

// Computes the level of each entry that a chain reaches, and 0 for the others. A mark is given as a `Mark`, as an octet, or as what else
// becomes a mark: `h` says which one it becomes.
pub fn levels<M: Copy + Into<Mark>>(
    ids: &[u32],
    kwks: &[u32],
    marks: &[M],
    n: usize,
) -> [usize; WRAP_KEYS]
    requires { (n ≤ limits.wrap_keys) × (n ≤ length ids.now) × (n ≤ length kwks.now) × (n ≤ length marks.now) }
    ensures { (h : M → Mark) → ((x : M) (y : Mark) → M.converts x y → y ≡ h x) →
        HasLevels n ids.now kwks.now (map h marks.now) result }
{
    levels_by_marks(ids, kwks, &marks_of(marks, n), n)
}
