// Enters new SAs into the table.
ghost use Rattle.std.specs.Prelude.{◌≡◌, ◌+◌, ◌≤◌, take};
ghost use Rattle.state_keys.specs.Limits.{limits};
ghost use Rattle.state_table.specs.Table.{sas_of, table_of};
ghost use Rattle.rules_outcome.specs.After.{insert_all};
ghost use Rattle.unwrap_sas.specs.inner.Keyed.{new_sas};

use state_sa::entry::Sa;
use state_table::Table;
use state_table::change::goes_ahead;
use unwrap_sas::joining::NEW_SAS;

// Enters the first `n` of `new` into the table `t`, each at its place in the table's order. The table has room for them.
pub fn enter_all(t: Table, new: [Sa; NEW_SAS], n: usize) -> Table
    requires { (t.count + n ≤ limits.sas) × (t ≡ table_of limits (sas_of t)) × (n ≤ new_sas) }
    ensures { result ≡ table_of limits (insert_all (take n new) (sas_of t)) }
{
    let mut sas = t.sas;
    let mut count = t.count;
    for i in (0..n).rev() {
        let mut carried = new[i];
        let mut placed = false;
        for j in 0..count {
            let s = sas[j];
            if goes_ahead(placed, carried, s) {
                sas[j] = carried;
                carried = s;
                placed = true;
            }
        }
        sas[count] = carried;
        count += 1;
    }
    Table { sas, count }
}
