// Questions about a table. A table whose count is over the limit is not formed, and no SA is found in it.
ghost use Rattle.std.specs.Prelude.{◌≡◌};
ghost use Rattle.state_keys.specs.Limits.{limits};
ghost use Rattle.state_table.specs.Table.{table_formed, found_sa, found_rekey};

use crate::Table;
use state_keys::limits::SAS;
use state_sa::entry::Sa;

impl Table {
    // Whether the table is as a member's must be: it has at most `SAS` SAs, each is formed, each stands before the next, and at most one is
    // a live Rekey SA.
    pub fn is_formed(self) -> bool
        ensures { result ≡ table_formed limits self }
    {
        let n = self.count;
        if SAS < n {
            return false;
        }
        let mut k: usize = 0;
        for i in 0..n {
            let s = self.sas[i];
            if !s.is_formed() {
                return false;
            }
            let j = i + 1;
            if j < n && !s.before(self.sas[j]) {
                return false;
            }
            if s.is_live_rekey() {
                k += 1;
            }
        }
        k <= 1
    }

    // Finds the SA with this `protocol` and `spi`.
    pub fn find(self, protocol: u8, spi: &[u8]) -> Option<Sa>
        ensures { result ≡ found_sa limits protocol spi.now self }
    {
        if SAS < self.count {
            return None;
        }
        for s in &self.sas[..self.count] {
            if s.is_named(protocol, spi) {
                return Some(*s);
            }
        }
        None
    }

    // Finds the live Rekey SA.
    pub fn live_rekey(self) -> Option<Sa>
        ensures { result ≡ found_rekey limits self }
    {
        if SAS < self.count {
            return None;
        }
        for s in &self.sas[..self.count] {
            if s.is_live_rekey() {
                return Some(*s);
            }
        }
        None
    }
}
