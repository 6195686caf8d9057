// The held list after a path. Document 02, T-11: "After acceptance the fresh path goes before the held key it ends on".
ghost use Rattle.std.specs.Prelude.{◌≡◌, true, not, ◌&&◌, List, map, ℕ, ◌-◌, ◌≤◌, ◌<◌, length, take};
ghost use Rattle.octets.specs.Numbers.{oct};
ghost use Rattle.state_keys.specs.Limits.{limits};
ghost use Rattle.state.specs.Held.{keys_of, held_of, held_formed};
ghost use Rattle.wire_attributes.specs.Tree.{WrapKey, SaKey};
ghost use Rattle.rules_chains.specs.Chain.{Root};
ghost use Rattle.rules_outcome.specs.Holding.{on_path};
ghost use Rattle.unwrap_copies.specs.inner.Openers.{OpenersAre};
ghost use Rattle.unwrap_paths.specs.inner.Kept.{LinksFit, SearchKept};
ghost use Rattle.unwrap_paths.specs.inner.Holding.{held_at, TrailFits, GoesBefore, PathTells};

use crate::back::Trail;
use crate::links::Links;
use crate::nearest::nearest_of;
use crate::path;
use state::held::{Held, HeldKey};
use state_keys::kinds::WrappingKey;
use state_keys::limits::HELD_KEYS;

// The list that a path leaves. `over` says that it has more keys than a held list may have; `held` is then the old list. Kept as a flag
// behind the list: behind the mark of an `Option` the compiler gives an array that is handed on more room (docs/landings/T-11.md).
#[derive(Clone, Copy)]
pub struct PathHeld {
    pub held: Held,
    pub over: bool,
}

// The keys at the places of a trail, in its order: their Key IDs are those of the links, their values those of the reached keys.
fn path_keys(links: Links, reached: Held, trail: Trail) -> Held
    requires { TrailFits trail }
    ensures { result ≡ held_of limits (map (held_at links.ids reached) (take trail.count trail.places)) }
{
    let count = trail.count;
    let mut keys = Held::new().keys;
    for i in 0..count {
        let at = trail.places[i];
        let id = links.ids[at];
        let key = reached.find(id).unwrap_or(WrappingKey::blank());
        keys[i] = HeldKey { id, key };
    }
    Held { keys, count }
}

// The Key ID of the key that a path ends on: the KWK ID of its last entry.
fn path_end(links: Links, trail: Trail) -> u32
    requires trail_fits { TrailFits trail }
    requires count_nonzero { 0 < trail.count }
    ensures { result ≡ oct links.kwks (oct trail.places (trail.count - 1)) }
{
    let at = trail.places[trail.count - 1];
    links.kwks[at]
}

// Whether a held key stays behind the path: it is the one that the path ends on or behind it (`met`), and the path has not its Key ID.
fn stays(path: Held, met: bool, k: HeldKey) -> bool
    requires { path.count ≤ limits.held_keys }
    ensures { result ≡ (met && not (on_path (keys_of path) k)) }
{
    met && path.find(k.id).is_none()
}

// Puts the keys of a path before those of the old list that stay.
fn path_before(path: Held, end: u32, old: Held) -> PathHeld
    requires count_le_held_keys { (path.count ≤ limits.held_keys) × (path ≡ held_of limits (keys_of path)) }
    requires count_le_held_keys_2 { old.count ≤ limits.held_keys }
    ensures { GoesBefore (keys_of path) end (keys_of old) result }
{
    if end == 0 {
        return PathHeld {
            over: false,
            held: path,
        };
    }
    let n = old.count;
    let mut keys = path.keys;
    let mut count = path.count;
    let mut met = false;
    for k in &old.keys[..n] {
        met |= k.id == end;
        if stays(path, met, *k) {
            if HELD_KEYS <= count {
                return PathHeld {
                    over: true,
                    held: old,
                };
            }
            keys[count] = *k;
            count += 1;
        }
    }
    let held = Held { keys, count };
    PathHeld { over: false, held }
}

// The held list after `old` by the path of all copies that open, of which `kwks` are the KWK IDs. `links` are what was kept of the
// search, and `reached` are the keys that it reached.
pub fn held_by_path(links: Links, reached: Held, old: Held, kwks: &[u32]) -> PathHeld
    requires links_fit { LinksFit links }
    requires value { held_formed limits old ≡ true }
    requires kwks_nonzero { 0 < length kwks.now }
    ensures { (roots : List Root) (l : List WrapKey) (size : ℕ) (copies : List SaKey) → SearchKept roots l size links reached →
        OpenersAre roots l size copies kwks.now → PathTells roots l size copies old result }
{
    let start = nearest_of(links, kwks);
    let trail = path(links, start);
    if trail.count == 0 {
        return PathHeld {
            over: false,
            held: old,
        };
    }
    let keys = path_keys(links, reached, trail);
    let end = path_end(links, trail);
    path_before(keys, end, old)
}
