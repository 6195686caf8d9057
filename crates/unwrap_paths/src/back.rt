// The way back from a key: by an entry that gives it, of the lowest level, on to the key which that entry names.
ghost use Rattle.std.specs.Prelude.{◌≤◌, length};
ghost use Rattle.state_keys.specs.Limits.{limits};
ghost use Rattle.unwrap_paths.specs.inner.Code.{Picks, HasLevel, GoesBack};

use state_keys::limits::WRAP_KEYS;

// The places of the entries of a path, the last one first.
// Kept as an array with its count, since memory is fixed.
#[derive(Clone, Copy)]
pub struct Trail {
    pub places: [usize; WRAP_KEYS],
    pub count: usize,
}

// Finds the level of the key with this Key ID: that of the lowest entry that gives it, 0 if none does. Kept as a loop: the proof of
// `zip(..).filter(..).map(..).min()` leaves open what it answers.
pub fn level_of(ids: &[u32], levels: &[usize; WRAP_KEYS], n: usize, id: u32) -> usize
    requires { (n ≤ limits.wrap_keys) × (n ≤ length ids.now) }
    ensures { HasLevel n ids.now levels.now id result }
{
    let mut found: usize = 0;
    for i in 0..n {
        if ids[i] == id && 0 < levels[i] && (found == 0 || levels[i] < found) {
            found = levels[i];
        }
    }
    found
}

// The entry of this Key ID and level with the lowest KWK ID, among the first n. Kept as a loop for the reason of `levels::lowest`.
fn lowest_kwk(
    ids: &[u32],
    kwks: &[u32],
    levels: &[usize; WRAP_KEYS],
    n: usize,
    id: u32,
    level: usize,
) -> Option<usize>
    requires { (n ≤ limits.wrap_keys) × (n ≤ length ids.now) × (n ≤ length kwks.now) }
    ensures { Picks n ids.now kwks.now levels.now id level result }
{
    let mut found: Option<usize> = None;
    for i in 0..n {
        if ids[i] == id && levels[i] == level && found.is_none_or(|at| kwks[i] < kwks[at]) {
            found = Some(i);
        }
    }
    found
}

// Finds the path to the key with this Key ID, of which `level` is the number of keys.
pub fn way_back(
    ids: &[u32],
    kwks: &[u32],
    levels: &[usize; WRAP_KEYS],
    n: usize,
    id: u32,
    level: usize,
) -> Trail
    requires n_le_wrap_keys { (n ≤ limits.wrap_keys) × (n ≤ length ids.now) × (n ≤ length kwks.now) }
    requires level_le_wrap_keys { level ≤ limits.wrap_keys }
    ensures { GoesBack n ids.now kwks.now levels.now id level result.places result.count }
{
    let mut places = [0usize; WRAP_KEYS];
    let mut at = id;
    for count in 0..level {
        let Some(i) = lowest_kwk(ids, kwks, levels, n, at, level - count) else {
            return Trail { places, count };
        };
        places[count] = i;
        at = kwks[i];
    }
    Trail {
        places,
        count: level,
    }
}
