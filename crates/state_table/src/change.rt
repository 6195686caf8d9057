// Changes of a table, and the count of its SAs that are not due.
ghost use Rattle.std.specs.Prelude.{◌≡◌, ◌||◌};
ghost use Rattle.state_keys.specs.Limits.{limits};
ghost use Rattle.state_sa.specs.Entry.{sa_before};
ghost use Rattle.state_table.specs.Table.{swept, empty_at};
ghost use Rattle.state_table.specs.inner.Changes.{standing_count};

use crate::Table;
use state_keys::limits::SAS;
use state_sa::entry::Sa;

// Whether `a` goes ahead of `s` while an SA is inserted. `placed` says that the inserted SA has its place already: from there on all SAs
// move back by one, and `a` is the one that has to move. Before that, `a` is the inserted SA, and the order of the table decides.
pub fn goes_ahead(placed: bool, a: Sa, s: Sa) -> bool
    ensures { result ≡ (placed || sa_before a s) }
{
    placed || a.before(s)
}

impl Table {
    // Removes the SAs that are due at `tick`. A table whose count is over the limit stays as it is.
    pub fn sweep(self, tick: u32) -> Table
        ensures { result ≡ swept limits tick self }
    {
        let n = self.count;
        if SAS < n {
            return self;
        }
        let mut out = [Sa::blank(); SAS];
        let mut k: usize = 0;
        for i in 0..n {
            let s = self.sas[i];
            if !s.due(tick) {
                out[k] = s;
                k += 1;
            }
        }
        Table { sas: out, count: k }
    }

    // Counts the SAs that are not due at `tick`. A count over the limit is answered as it is.
    pub fn count_standing(self, tick: u32) -> usize
        ensures { result ≡ standing_count limits tick self }
    {
        let n = self.count;
        if SAS < n {
            return n;
        }
        let mut k: usize = 0;
        for s in &self.sas[..n] {
            if !s.due(tick) {
                k += 1;
            }
        }
        k
    }

    // Whether every SA, if any, is due at `tick`.
    pub fn is_empty(self, tick: u32) -> bool
        ensures { result ≡ empty_at limits tick self }
    {
        self.count_standing(tick) == 0
    }
}
