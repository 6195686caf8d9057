// Of the keys that copies name, the one that a path starts from: document 02, T-11, "The path rule of T-04 applies over all copies".
ghost use Rattle.std.specs.Prelude.{◌<◌, length};
ghost use Rattle.unwrap_paths.specs.inner.Kept.{LinksFit};
ghost use Rattle.unwrap_paths.specs.inner.Nearest.{NearerOf, NearestOf};

use crate::back::level_of;
use crate::links::Links;

// The Key ID of a key and its level: the number of entries on the way back from it.
#[derive(Clone, Copy)]
pub struct Nearest {
    pub kwk: u32,
    pub level: usize,
}

// The one of two keys whose path comes first: it has the lower level, or the same level and the lower Key ID.
fn nearer(a: Nearest, kwk: u32, level: usize) -> Nearest
    ensures { NearerOf a kwk level result }
{
    if level < a.level || level == a.level && kwk < a.kwk {
        return Nearest { kwk, level };
    }
    a
}

// Finds the key whose path comes first, of those with the Key IDs `kwks`.
pub fn nearest_of(links: Links, kwks: &[u32]) -> Nearest
    requires links_fit { LinksFit links }
    requires kwks_nonzero { 0 < length kwks.now }
    ensures { NearestOf links.count links.ids links.levels (length kwks.now) kwks.now result }
{
    let first = kwks[0];
    let mut best = Nearest {
        kwk: first,
        level: level_of(&links.ids, &links.levels, links.count, first),
    };
    for kwk in &kwks[1..] {
        let level = level_of(&links.ids, &links.levels, links.count, *kwk);
        best = nearer(best, *kwk, level);
    }
    best
}
