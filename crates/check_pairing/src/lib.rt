// Compares policies, key bags and SAs of the table by protocol and SPI. The policies and bags are read from a frame's GSA and KD bodies.
// Internal: crates of this repository alone call it.
#![tactic(auto)]

pub mod names;
pub mod stretch;

ghost use Rattle.std.specs.Prelude.{◌≡◌, List, ◌≤◌};
ghost use Rattle.lists.specs.Lists.{any};
ghost use Rattle.state_keys.specs.Limits.{limits};
ghost use Rattle.state_table.specs.Table.{sas_of};
ghost use Rattle.check_pairing.specs.inner.Names.{Name, Names, is_announced};

use state_sa::entry::Sa;
use state_table::Table;

// Whether SA `s` is not due at `tick` and has the protocol and SPI of a policy of GSA body `gsa`.
fn is_announced(s: Sa, gsa: &[u8], tick: u32) -> bool
    requires { (l : List Name) × Names gsa.now l }
    ensures { (l : List Name) → Names gsa.now l → result ≡ is_announced tick l s }
{
    let p = s.protocol;
    let x = s.spi;
    let n = state_sa::entry::spi_size(p);
    !s.due(tick) && 0 < names::count_names(octets::wide(p), &x[..n], gsa)
}

// Whether some SA of table `t` is not due at `tick` and has the protocol and SPI of a policy of GSA body `gsa`.
pub fn any_in_table(gsa: &[u8], t: Table, tick: u32) -> bool
    requires { ((l : List Name) × Names gsa.now l) × (t.count ≤ limits.sas) }
    ensures { (l : List Name) → Names gsa.now l → result ≡ any (is_announced tick l) (sas_of t) }
{
    let n = t.count;
    t.sas[..n].iter().any(|s| is_announced(*s, gsa, tick))
}
