// The table of SAs. A table made here has blank places past its count; a table that comes in may hold anything there.
// Internal: crates of this repository alone call it.
#![tactic(auto)]

pub mod change;
pub mod test;

ghost use Rattle.std.specs.Prelude.{◌≡◌, []};
ghost use Rattle.state_keys.specs.Limits.{limits};
ghost use Rattle.state_table.specs.Table.{table_of};

use state_keys::limits::SAS;
use state_sa::entry::Sa;

// A table: its SAs are the first `count` of `sas`.
// Kept as an array with its count, since memory is fixed.
#[derive(Clone, Copy, PartialEq, Eq)]
pub struct Table {
    pub sas: [Sa; SAS],
    pub count: usize,
}

impl Table {
    // Makes a table with no SA.
    pub fn new() -> Table
        ensures { result ≡ table_of limits [] }
    {
        let none = [Sa::blank(); SAS];
        Table {
            sas: none,
            count: 0,
        }
    }
}
