// Number 4: what a frame is made up of.
ghost use Rattle.std.specs.Prelude.{◌≡◌};
ghost use Rattle.rules_refusals.specs.Refusals.{one};
ghost use Rattle.check_judging.specs.inner.Tests.{number4_by, number4_in};

use crate::facts::Facts;
use wire_frames::exchanges::Exchange;

// Whether each clause of number 4 applies, in the order of documents 01 and 02. Kept as a type of its own, as those of numbers 5 to 7 are:
// what is printed of a frame calls each clause by its name, which a list of tests for all numbers would not have.
#[derive(Clone, Copy)]
pub struct Clauses4 {
    pub critical: bool,
    pub member_bag: bool,
    pub delete: bool,
    pub two_gsa: bool,
    pub two_kd: bool,
    pub gsa_alone: bool,
    pub kd_alone: bool,
    pub neither: bool,
    pub rekeys: bool,
    pub wides: bool,
    pub members: bool,
    pub no_sa: bool,
    pub two_lengths: bool,
    pub two_message_ids: bool,
    pub two_delays: bool,
    pub elsewhere: bool,
    pub two_lifetimes: bool,
}

// Judges each clause of number 4 for a frame with the facts `x`. `row` is the row of its exchange.
pub fn clauses_4(row: Exchange, x: Facts) -> Clauses4
    ensures { number4_in result ≡ number4_by row x }
{
    let b = x.payloads;
    let p = x.policies;
    let k = x.bags;
    let gsa = 0 < b.gsas;
    let kd = 0 < b.kds;
    let deletes = 0 < b.deletes;
    Clauses4 {
        // "critical unknown payload"
        critical: b.critical,
        // "Member bag in a rekey", of either kind
        member_bag: !row.allows_member_bag & (0 < k.members),
        // "D in a registration", by T-02 in GSA_INBAND_REKEY too
        delete: !row.allows_deletes & deletes,
        // "two GSA or two KD"
        two_gsa: 1 < b.gsas,
        two_kd: 1 < b.kds,
        // "one without the other"
        gsa_alone: gsa & !kd,
        kd_alone: kd & !gsa,
        // "neither (unless a rekey has D)"
        neither: !gsa & (!kd & !(row.allows_deletes & deletes)),
        // "more than one Rekey policy, group-wide policy or Member bag"
        rekeys: 1 < p.rekeys,
        wides: 1 < p.wides,
        members: 1 < k.members,
        // "a GSA with no SA policy"
        no_sa: gsa & !(0 < p.sas),
        // "Key Length, GSA_INITIAL_MESSAGE_ID or the deactivation delay twice in one place"
        two_lengths: p.two_lengths,
        two_message_ids: p.two_message_ids,
        two_delays: p.two_delays,
        // "a Rekey destination that isn't one address (start equals end) in 224.0.0.0/4 or ff00::/8 and one port"
        elsewhere: p.elsewhere,
        // GSA_KEY_LIFETIME "twice in one policy" (document 02, T-07)
        two_lifetimes: p.two_lifetimes,
    }
}

// Whether number 4 applies to a frame with the facts `x`. `row` is the row of its exchange.
pub fn number_4(row: Exchange, x: Facts) -> bool
    ensures { result ≡ one (number4_by row x) }
{
    let c = clauses_4(row, x);
    c.critical
        | c.member_bag
        | c.delete
        | c.two_gsa
        | c.two_kd
        | c.gsa_alone
        | c.kd_alone
        | c.neither
        | c.rekeys
        | c.wides
        | c.members
        | c.no_sa
        | c.two_lengths
        | c.two_message_ids
        | c.two_delays
        | c.elsewhere
        | c.two_lifetimes
}
