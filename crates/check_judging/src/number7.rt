// Number 7: what does not fit into the member's limits.
ghost use Rattle.std.specs.Prelude.{◌≡◌, ◌+◌, ltb};
ghost use Rattle.state_keys.specs.Limits.{limits};
ghost use Rattle.rules_refusals.specs.Refusals.{one};
ghost use Rattle.check_judging.specs.inner.Tests.{number7_by, number7_in};

use crate::facts::Facts;
use state_keys::limits::{DELETED_SPIS, ESP_POLICIES, FRESH_KEYS, SAS, WRAP_KEYS};

// Whether `standing` SAs of the table and `more` new ones are over the limit. The sum is never formed, so it cannot overflow.
fn is_over(standing: usize, more: usize) -> bool
    ensures { result ≡ ltb limits.sas (standing + more) }
{
    SAS < standing || SAS - standing < more
}

// Whether each clause of number 7 applies: those on the frame, then the one on the table.
#[derive(Clone, Copy)]
pub struct Clauses7 {
    pub esps: bool,
    pub wraps: bool,
    pub overfull: bool,
    pub spis: bool,
    pub long: bool,
    pub fresh: bool,
    pub sas: bool,
}

// Judges each clause of number 7 for a frame with the facts `x`. `standing` is the number of SAs in the table that are not due.
pub fn clauses_7(x: Facts, standing: usize) -> Clauses7
    ensures { number7_in result ≡ number7_by limits x standing }
{
    let b = x.payloads;
    let d = b.deletion;
    let p = x.policies;
    let k = x.bags;
    // "over 8 ESP policies", by T-01 24
    let esps = ESP_POLICIES < p.esps;
    // "32 WRAP_KEY", by T-01 128
    let wraps = WRAP_KEYS < k.wraps;
    // "32 SA_KEY in a bag"
    let overfull = k.overfull;
    // "32 deleted SPIs in the frame"
    let spis = DELETED_SPIS < d.spis;
    // "More seconds are number 7" (document 02, T-07)
    let long = p.long;
    // fresh keys: "over 128 gives 7" (document 02, T-11)
    let fresh = FRESH_KEYS < k.fresh;
    // "or over 16 SAs after the frame, those already due when it arrives not counted", by T-01 64
    let sas = is_over(standing, p.sas);
    Clauses7 {
        esps,
        wraps,
        overfull,
        spis,
        long,
        fresh,
        sas,
    }
}

// Whether number 7 applies to a frame with the facts `x`. `standing` is the number of SAs in the table that are not due.
pub fn number_7(x: Facts, standing: usize) -> bool
    ensures { result ≡ one (number7_by limits x standing) }
{
    let c = clauses_7(x, standing);
    c.esps | c.wraps | c.overfull | c.spis | c.long | c.fresh | c.sas
}
