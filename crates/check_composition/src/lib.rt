// The facts of the policies of a GSA payload, in one walk: what numbers 4 to 7 of document 01 ask for, and what the next member state
// needs.
// Internal: crates of this repository alone call it.
#![tactic(auto)]

pub mod addresses;
pub mod numbers;

ghost use Rattle.std.specs.Prelude.{◌≡◌, true, List, ℕ, ◌<◌};
ghost use Rattle.wire_attributes.specs.Place.{in_policy};
ghost use Rattle.wire_attributes.specs.Layout.{attributes};
ghost use Rattle.wire_attributes.specs.declared.tables.Place.TheVariants.{GroupWidePolicy};
ghost use Rattle.wire_policies.specs.Policy.{SaBody, group_wide_of, policies};
ghost use Rattle.wire_policies.specs.Grammar.{IsSaBody};
ghost use Rattle.wire_readers.specs.inner.Values.{is_whole};
ghost use Rattle.wire_readers.specs.inner.Policies.{policies_in};
ghost use Rattle.check_composition.specs.inner.Facts.{no_policies, of_sa, sa_with, wide_by, merge_policy_facts, policy_facts_of};
ghost use Rattle.check_composition.specs.inner.Facts.{PolicyBodyHolds, FactsOfPolicy, PolicyFactsAtMost, Added};

use ikev2_numbers::{AH, ESP, GIKE_UPDATE, NO_PROTOCOL};
use numbers::{Numbers, numbers_of};
use state_sa::entry::MOST_SECONDS;
use wire_attributes::tables::{Meaning, Place};
use wire_readers::one_if;

// The facts of the policies of a GSA payload.
#[derive(Clone, Copy, Default)]
pub struct PolicyFacts {
    // the numbers of Group SA policies, of those of ESP, of those of a Rekey SA, and of group-wide policies
    pub sas: usize,
    pub esps: usize,
    pub rekeys: usize,
    pub wides: usize,
    // some policy is of AH
    pub ah: bool,
    // Key Length stands twice in a transform, GSA_INITIAL_MESSAGE_ID twice in a policy, the deactivation delay twice in a group-wide
    // policy, GSA_KEY_LIFETIME twice in a policy
    pub two_lengths: bool,
    pub two_message_ids: bool,
    pub two_delays: bool,
    pub two_lifetimes: bool,
    // some Rekey policy has a destination that is not one multicast address and one port
    pub elsewhere: bool,
    // some lifetime has more seconds than allowed
    pub long: bool,
    // some Group SA policy has other transforms than it must have
    pub unfit: bool,
    // the deactivation delay of the group-wide policies, and the first Message ID of the Rekey policies; of each the greatest, or 0 if
    // there is none
    pub delay: u16,
    pub initial: u32,
}

// Answers the facts of no policy, with which the walk starts.
fn no_policies() -> PolicyFacts
    ensures { result ≡ no_policies }
{
    PolicyFacts::default()
}

// Answers the facts of a group-wide policy with the deactivation delays `n`.
fn of_wide(n: Numbers) -> PolicyFacts
    requires { n.greatest < 65536 }
    ensures { result ≡ wide_by n }
{
    PolicyFacts {
        wides: 1,
        two_delays: 1 < n.count,
        delay: n.greatest as u16,
        ..no_policies()
    }
}

// Collects the facts of a Group SA policy of protocol `protocol`. `o` are its octets after the SPI. `authentication` says whether the
// exchange asks for the controller's authentication.
fn of_sa(authentication: bool, protocol: usize, o: &[u8]) -> PolicyFacts
    requires { (x : SaBody) × IsSaBody (in_policy protocol) o.now x }
    ensures { (x : SaBody) (spi : List ℕ) → IsSaBody (in_policy protocol) o.now x
        → result ≡ of_sa authentication (sa_with protocol spi x) }
{
    let p = wire_readers::body::sa_parts(o);
    let d = p.destination;
    let t = p.transforms;
    let a = p.attributes;
    let u = check_suites::suite(&o[t..]);
    let place = wire_attributes::tables::in_policy(protocol);
    let n = numbers_of(Meaning::InitialMessageId, place, &o[a..]);
    let m = numbers_of(Meaning::KeyLifetime, place, &o[a..]);
    let group = addresses::is_group_address(&o[d..t]);
    let fit = u.is_fit(authentication, protocol);
    let rekey = protocol == GIKE_UPDATE;
    PolicyFacts {
        sas: 1,
        esps: one_if(protocol == ESP),
        rekeys: one_if(rekey),
        ah: protocol == AH,
        two_lengths: 0 < u.doubled,
        two_message_ids: 1 < n.count,
        two_lifetimes: 1 < m.count,
        elsewhere: rekey & !group,
        long: MOST_SECONDS < m.greatest,
        unfit: !fit,
        initial: if rekey { n.greatest } else { 0 },
        ..no_policies()
    }
}

// Collects the facts of one policy: a group-wide policy if its first octet `first` is 0, else a Group SA policy of that protocol. `o` are
// its octets after the head.
fn of_policy(authentication: bool, first: usize, o: &[u8]) -> PolicyFacts
    requires { PolicyBodyHolds first o.now }
    ensures { FactsOfPolicy authentication first o.now result }
{
    if first == NO_PROTOCOL {
        return of_wide(numbers_of(Meaning::DeactivationDelay, Place::GroupWidePolicy, o));
    }
    of_sa(authentication, first, o)
}

// Merges the facts of two groups of policies: adds the counts, keeps a fault of either, and takes the greater delay and first Message ID.
fn merge(a: PolicyFacts, b: PolicyFacts) -> PolicyFacts
    requires { Added a b }
    ensures { result ≡ merge_policy_facts a b }
{
    let delay = a.delay.max(b.delay);
    let initial = a.initial.max(b.initial);
    let sas = a.sas + b.sas;
    let esps = a.esps + b.esps;
    let rekeys = a.rekeys + b.rekeys;
    let wides = a.wides + b.wides;
    PolicyFacts {
        sas,
        esps,
        rekeys,
        wides,
        ah: a.ah | b.ah,
        two_lengths: a.two_lengths | b.two_lengths,
        two_message_ids: a.two_message_ids | b.two_message_ids,
        two_delays: a.two_delays | b.two_delays,
        two_lifetimes: a.two_lifetimes | b.two_lifetimes,
        elsewhere: a.elsewhere | b.elsewhere,
        long: a.long | b.long,
        unfit: a.unfit | b.unfit,
        delay,
        initial,
    }
}

// Collects the facts of the policies of GSA body `gsa`. `authentication` says whether the exchange asks for the controller's
// authentication.
pub fn policy_facts(authentication: bool, gsa: &[u8]) -> PolicyFacts
    requires { is_whole (policies 0 gsa.now) ≡ true }
    ensures { result ≡ policy_facts_of authentication (policies_in gsa.now) }
{
    let mut f = no_policies();
    let mut at = 0;
    // Kept as a `while`: the place moves by what each policy says, and there is no index to count.
    while at < gsa.len() {
        let p = wire_readers::policy::policy_parts(&gsa[at..]);
        let start = at + p.body;
        let end = at + p.end;
        f = merge(f, of_policy(authentication, p.first, &gsa[start..end]));
        at = end;
    }
    f
}
