// Number 5: what the member does not support.
ghost use Rattle.std.specs.Prelude.{◌≡◌};
ghost use Rattle.rules_refusals.specs.Refusals.{one};
ghost use Rattle.check_judging.specs.inner.Tests.{number5_by, number5_in};

use crate::facts::Facts;
use state_keys::kinds::WrappingKey;
use wire_frames::exchanges::Exchange;

// Whether each clause of number 5 applies, in the order of document 01.
#[derive(Clone, Copy)]
pub struct Clauses5 {
    pub ah_policy: bool,
    pub ah_bag: bool,
    pub unfit: bool,
    pub other: bool,
    pub none: bool,
    pub key: bool,
}

// Judges each clause of number 5 for a frame with the facts `x`. `row` is the row of its exchange, `lent` the size of the lent key in
// octets.
pub fn clauses_5(row: Exchange, lent: usize, x: Facts) -> Clauses5
    ensures { number5_in result ≡ number5_by row lent x }
{
    let b = x.payloads;
    let d = b.deletion;
    let p = x.policies;
    let k = x.bags;
    // "an AH policy or bag"
    let ah_policy = p.ah;
    let ah_bag = k.ah;
    // "a policy whose transforms aren't exactly those below"
    let unfit = p.unfit;
    // "Delete of another protocol than ESP or with count 0"
    let other = d.other;
    let none = d.none;
    // "a lent default key not of 16, 24 or 32 octets in a registration", by T-02 in GSA_INBAND_REKEY too
    let key = row.judges_lent_key & !WrappingKey::is_size(lent);
    Clauses5 {
        ah_policy,
        ah_bag,
        unfit,
        other,
        none,
        key,
    }
}

// Whether number 5 applies to a frame with the facts `x`. `row` is the row of its exchange, `lent` the size of the lent key in octets.
pub fn number_5(row: Exchange, lent: usize, x: Facts) -> bool
    ensures { result ≡ one (number5_by row lent x) }
{
    let c = clauses_5(row, lent, x);
    c.ah_policy | c.ah_bag | c.unfit | c.other | c.none | c.key
}
