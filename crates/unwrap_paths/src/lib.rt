// The path by which a member's held list goes on: from the cells of a search to the places of its entries.
// Internal: crates of this repository alone call it.
#![tactic(auto)]

pub mod back;
pub mod held;
pub mod levels;
pub mod links;
pub mod nearest;

ghost use Rattle.std.specs.Prelude.{◌≤◌};
ghost use Rattle.state_keys.specs.Limits.{limits};
ghost use Rattle.unwrap_paths.specs.inner.Code.{GoesBack};
ghost use Rattle.unwrap_paths.specs.inner.Kept.{LinksFit};

use back::{Trail, way_back};
use links::Links;
use nearest::Nearest;

// Finds the path to the key `start`, by what was kept of a search.
pub fn path(links: Links, start: Nearest) -> Trail
    requires links_fit { LinksFit links }
    requires level_le_wrap_keys { start.level ≤ limits.wrap_keys }
    ensures { GoesBack links.count links.ids links.kwks links.levels start.kwk start.level result.places
        result.count }
{
    way_back(
        &links.ids,
        &links.kwks,
        &links.levels,
        links.count,
        start.kwk,
        start.level,
    )
}
