// Drops the SAs that are due when a frame is accepted, and retires the old Rekey SA if there is a new one.
ghost use Rattle.std.specs.Prelude.{◌≡◌, map, ◌≤◌};
ghost use Rattle.state_keys.specs.Limits.{limits};
ghost use Rattle.state_table.specs.Table.{sas_of, table_of, not_due, retired_if};
ghost use Rattle.apply.specs.inner.Tables.{outdated};

use state_keys::limits::SAS;
use state_sa::entry::{REKEY, Sa};
use state_table::Table;

// Retires the SA `a` if it is a Rekey SA and `new` says that there is a new one.
fn retire_old(a: Sa, new: bool, tick: u32, delay: u16) -> Sa
    ensures { result ≡ retired_if (outdated new) tick delay a }
{
    if new && a.protocol == REKEY {
        a.retire(tick, delay)
    } else {
        a
    }
}

// Drops the SAs of `t` that are due at `tick`. Retires the old Rekey SA if `new` says that there is a new one.
pub fn keep_standing(t: Table, new: bool, tick: u32, delay: u16) -> Table
    requires { t.count ≤ limits.sas }
    ensures { result ≡ table_of limits (map (retired_if (outdated new) tick delay) (not_due tick (sas_of t))) }
{
    let n = t.count;
    let mut out = [Sa::blank(); SAS];
    let mut k: usize = 0;
    for a in &t.sas[..n] {
        if !a.due(tick) {
            out[k] = retire_old(*a, new, tick, delay);
            k += 1;
        }
    }
    Table { sas: out, count: k }
}
