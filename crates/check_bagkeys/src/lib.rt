// The facts of a KD payload, in one walk: what numbers 4 to 7 of document 01 ask of its key bags, and where the Member Key Bag stands.
// `fresh` says whether fresh keys are read in the Rekey SA's bag (document 02, T-11).
// Internal: crates of this repository alone call it.
#![tactic(auto)]

pub mod wrapped;

ghost use Rattle.std.specs.Prelude.{◌≡◌, true, ℕ, ◌+◌, ◌<◌, ◌≤◌, length};
ghost use Rattle.state_keys.specs.Limits.{limits};
ghost use Rattle.wire_attributes.specs.Layout.{attributes};
ghost use Rattle.wire_attributes.specs.Place.{in_bag};
ghost use Rattle.wire_attributes.specs.declared.tables.Meaning.TheVariants as meaning;
ghost use Rattle.wire_bags.specs.Bag.{place_of, bags};
ghost use Rattle.wire_readers.specs.inner.Values.{is_whole, values_in};
ghost use Rattle.check_bagkeys.specs.inner.Facts.{key_facts_of, no_bags, of_group, of_member, IsOfBag, merge_bag_facts};
ghost use Rattle.check_bagkeys.specs.inner.Places.{first_member, kd_facts_of};

use ikev2_numbers::{AH, ESP, GIKE_UPDATE, NO_PROTOCOL};
use state_keys::limits::SA_KEYS;
use wire_attributes::tables::{Meaning, Place};
use wire_readers::Stretch;
use wrapped::KeyFacts;

// The facts of the key bags of a KD payload.
#[derive(Clone, Copy, Default)]
pub struct BagFacts {
    // the numbers of Member Key Bags and of WRAP_KEYs
    pub members: usize,
    pub wraps: usize,
    // some WRAP_KEY has Key ID 0; some WRAP_KEY has a Key ID that equals its KWK ID
    pub unnamed: bool,
    pub itself: bool,
    // some Group Key Bag is of AH
    pub ah: bool,
    // some Group Key Bag has no SA_KEY; some of ESP or AH has several; some of a Rekey SA has several
    pub keyless: bool,
    pub several: bool,
    pub several_of_rekey: bool,
    // some Group Key Bag has more SA_KEYs than the limit
    pub overfull: bool,
    // some SA_KEY has a Key ID other than 0; some SA_KEY of ESP has a KWK ID other than 0
    pub named: bool,
    pub esp_with_kwk_id: bool,
    // the number of fresh keys; some fresh key has Key ID 0; some fresh key has a Key ID that equals its KWK ID
    pub fresh: usize,
    pub fresh_unnamed: bool,
    pub fresh_itself: bool,
}

// The facts of a KD body: those of its bags, and where the attributes of the first Member Key Bag stand in it. The stretch is empty if
// there is no such bag. If there are several, number 4 applies.
// Kept as a stretch and not as an `Option`: an empty one cuts attributes with nothing in them, which are gone through like any other.
#[derive(Clone, Copy)]
pub struct KdFacts {
    pub bags: BagFacts,
    pub member_bag: Stretch,
}

// Answers the facts of no bag, with which the walk starts.
fn no_bags() -> BagFacts
    ensures { result ≡ no_bags }
{
    BagFacts::default()
}

// Answers the facts of a Group Key Bag of protocol `protocol`. `k` are the facts of its SA_KEYs, `e` those of its fresh keys.
fn of_group(protocol: usize, k: KeyFacts, e: KeyFacts) -> BagFacts
    ensures { result ≡ of_group limits protocol k e }
{
    // `unnamed` and `itself` stay as they are of no bag: they are asked of a WRAP_KEY alone
    BagFacts {
        ah: protocol == AH,
        keyless: k.keys == 0,
        several: (protocol != GIKE_UPDATE) & (1 < k.keys),
        several_of_rekey: (protocol == GIKE_UPDATE) & (1 < k.keys),
        overfull: SA_KEYS < k.keys,
        named: k.named,
        esp_with_kwk_id: (protocol == ESP) & k.with_kwk_id,
        fresh: e.keys,
        fresh_unnamed: e.unnamed,
        fresh_itself: e.itself,
        ..no_bags()
    }
}

// Answers the facts of a Member Key Bag. `k` are the facts of its WRAP_KEYs.
fn of_member(k: KeyFacts) -> BagFacts
    ensures { result ≡ of_member k }
{
    BagFacts {
        members: 1,
        wraps: k.keys,
        unnamed: k.unnamed,
        itself: k.itself,
        ..no_bags()
    }
}

// Merges the facts of two groups of bags: adds the counts and keeps a fault of either.
// Kept beside that of policies: a trait for both would still say field by field what is added and what is kept.
fn merge(a: BagFacts, b: BagFacts) -> BagFacts
    requires { (a.members + b.members < 18446744073709551616) × (a.wraps + b.wraps < 18446744073709551616)
        × (a.fresh + b.fresh < 18446744073709551616) }
    ensures { result ≡ merge_bag_facts a b }
{
    let members = a.members + b.members;
    let wraps = a.wraps + b.wraps;
    let fresh = a.fresh + b.fresh;
    BagFacts {
        members,
        wraps,
        unnamed: a.unnamed | b.unnamed,
        itself: a.itself | b.itself,
        ah: a.ah | b.ah,
        keyless: a.keyless | b.keyless,
        several: a.several | b.several,
        several_of_rekey: a.several_of_rekey | b.several_of_rekey,
        overfull: a.overfull | b.overfull,
        named: a.named | b.named,
        esp_with_kwk_id: a.esp_with_kwk_id | b.esp_with_kwk_id,
        fresh,
        fresh_unnamed: a.fresh_unnamed | b.fresh_unnamed,
        fresh_itself: a.fresh_itself | b.fresh_itself,
    }
}

// Collects the facts of the fresh keys among the attributes `a` of a Group Key Bag, whose place is `place`. Where fresh keys are not read
// (`fresh`) there is none, and the attributes are not gone over once more.
fn fresh_of(fresh: bool, place: Place, a: &[u8]) -> KeyFacts
    requires { is_whole (attributes place 0 a.now) ≡ true }
    ensures { (first : ℕ) → place ≡ in_bag fresh first →
        (result ≡ key_facts_of (values_in meaning.FreshKey place a.now)) × (result.keys ≤ length a.now) }
{
    if fresh {
        wrapped::keys_of(Meaning::FreshKey, place, a)
    } else {
        KeyFacts::default()
    }
}

// Collects the facts of one bag with the attributes `a`: a Member Key Bag if its first octet `first` is 0, else a Group Key Bag of that
// protocol.
fn of_bag(fresh: bool, first: usize, a: &[u8]) -> BagFacts
    requires { is_whole (attributes (place_of fresh first) 0 a.now) ≡ true }
    ensures { IsOfBag limits fresh first a.now result }
{
    if first == NO_PROTOCOL {
        return of_member(wrapped::keys_of(Meaning::WrapKey, Place::MemberBag, a));
    }
    let place = wire_attributes::tables::in_bag(fresh, first);
    let k = wrapped::keys_of(Meaning::SaKey, place, a);
    let e = fresh_of(fresh, place, a);
    of_group(first, k, e)
}

// Answers where the attributes of the first Member Key Bag stand, once the bag with first octet `first` is read: `here` if it is a Member
// Key Bag and none is known, else `known`. No bag ends at octet 0, so an end of 0 means that none is known.
// Kept beside `check_payloads::kinds::first`: that one asks for a count, and this walk knows of the bag by its place alone.
fn first_member(first: usize, here: Stretch, known: Stretch) -> Stretch
    ensures { result ≡ first_member first here known }
{
    if first == NO_PROTOCOL && known.end == 0 {
        here
    } else {
        known
    }
}

// Collects the facts of KD body `kd`.
pub fn kd_facts(fresh: bool, kd: &[u8]) -> KdFacts
    requires { is_whole (bags fresh 0 kd.now) ≡ true }
    ensures { result ≡ kd_facts_of limits fresh kd.now }
{
    let mut f = no_bags();
    let mut found = Stretch { start: 0, end: 0 };
    let mut at = 0;
    // Kept as a `while`: the place moves by what each bag says, and where the Member Key Bag stands is an answer.
    while at < kd.len() {
        let p = wire_readers::bag::bag_parts(&kd[at..]);
        let start = at + p.body;
        let end = at + p.end;
        found = first_member(p.first, Stretch { start, end }, found);
        f = merge(f, of_bag(fresh, p.first, &kd[start..end]));
        at = end;
    }
    KdFacts {
        bags: f,
        member_bag: found,
    }
}
