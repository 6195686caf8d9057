// Number 6: policies, key bags and keys that do not belong together.
ghost use Rattle.std.specs.Prelude.{◌≡◌, List, ◌≤◌};
ghost use Rattle.state_keys.specs.Limits.{limits};
ghost use Rattle.state_table.specs.Table.{sas_of};
ghost use Rattle.check_pairing.specs.inner.Names.{Name, Names};
ghost use Rattle.rules_refusals.specs.Refusals.{one};
ghost use Rattle.check_judging.specs.inner.Tests.{keys_by, keys_in, number6_by};

use crate::facts::Facts;
use check_bagkeys::BagFacts;
use check_pairing::names::any_unpaired;
use state_table::Table;
use wire_frames::exchanges::Exchange;

// Whether each clause of number 6 on the keys of the bags applies, in the order of document 01, T-09 and T-11.
#[derive(Clone, Copy)]
pub struct Keys {
    pub count: bool,
    pub named: bool,
    pub esp_with_kwk_id: bool,
    pub unnamed: bool,
    pub itself: bool,
    pub fresh_unnamed: bool,
    pub fresh_itself: bool,
}

// Judges each clause of number 6 on the keys for bags with the facts `k`. `row` is the row of the frame's exchange.
pub fn clauses_6(row: Exchange, k: BagFacts) -> Keys
    ensures { keys_in result ≡ keys_by row k }
{
    // "SA_KEY count not 1 (for a Rekey SA in a rekey: 0)", where the rekey is a GSA_REKEY
    let count = k.keyless | k.several | (!row.allows_copies & k.several_of_rekey);
    // "SA_KEY with Key ID not 0"
    let named = k.named;
    // "ESP SA_KEY with KWK ID not 0"
    let esp_with_kwk_id = k.esp_with_kwk_id;
    // "WRAP_KEY with Key ID 0"
    let unnamed = k.unnamed;
    // document 02, T-09: "an entry whose Key ID equals its KWK ID. Any such WRAP_KEY, reached or not"
    let itself = k.itself;
    // document 02, T-11, of fresh keys: "Key ID 0 and a self-wrapping give 6"
    let fresh_unnamed = k.fresh_unnamed;
    let fresh_itself = k.fresh_itself;
    Keys {
        count,
        named,
        esp_with_kwk_id,
        unnamed,
        itself,
        fresh_unnamed,
        fresh_itself,
    }
}

// Whether some clause of number 6 on the keys applies to bags with the facts `k`. `row` is the row of the frame's exchange.
pub fn any_unfit_key(row: Exchange, k: BagFacts) -> bool
    ensures { result ≡ one (keys_by row k) }
{
    let c = clauses_6(row, k);
    c.count | c.named | c.esp_with_kwk_id | c.unnamed | c.itself | c.fresh_unnamed | c.fresh_itself
}

// Whether number 6 applies, over table `t` at `tick`, to a frame with the facts `x` and the bodies `gsa` and `kd`. `row` is the row of its
// exchange. The names are compared only if no fact decides, because each name takes a walk of its own.
pub fn number_6(row: Exchange, x: Facts, gsa: &[u8], kd: &[u8], t: Table, tick: u32) -> bool
    requires { ((l : List Name) × Names gsa.now l) × ((m : List Name) × Names kd.now m) × (t.count ≤ limits.sas) }
    ensures { (l m : List Name) → Names gsa.now l → Names kd.now m →
        result ≡ one (number6_by row x l m tick (sas_of t)) }
{
    any_unfit_key(row, x.bags)
        // "policies and Group Key Bags not paired one to one by protocol and SPI; one protocol and SPI twice": where a name stands twice,
        // policies and bags are not paired one to one either
        || any_unpaired(gsa, kd)
        || any_unpaired(kd, gsa)
        // "or already in the table (SAs due at the tick not counted)"
        || check_pairing::any_in_table(gsa, t, tick)
}
