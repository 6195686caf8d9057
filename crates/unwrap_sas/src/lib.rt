// Opens the keys of the SAs that a frame announces: the result is refusal 8 (of their copies), refusal 9, or the new SAs. Refusals 2 to 7
// were judged before.
// Internal: crates of this repository alone call it.
#![tactic(auto)]

pub mod joining;
pub mod lifetime;

ghost use Rattle.std.specs.Prelude.{◌≡◌, true, ℕ, ◌≤◌, ◌<◌, length};
ghost use mathlib.Core.List.{List, flat_map};
ghost use Rattle.state_keys.specs.Rooms.{sa_room};
ghost use Rattle.wire_attributes.specs.Tree.{WrapKey};
ghost use Rattle.wire_policies.specs.Policy.{GroupSaPolicy, policies};
ghost use Rattle.wire_bags.specs.Bag.{bags};
ghost use Rattle.wire_frames.specs.Frame.{Frame};
ghost use Rattle.wire_readers.specs.inner.Values.{is_whole};
ghost use Rattle.wire_readers.specs.inner.Bags.{bags_in};
ghost use Rattle.state_keys.specs.Algorithms.{is_wrapping_size};
ghost use Rattle.lists.specs.Lists.{count};
ghost use Rattle.state.specs.declared.held.HeldKey.{HeldKey};
ghost use Rattle.rules_refusals.specs.Contents.{group_bag_of, bags_of};
ghost use Rattle.rules_refusals.specs.Number6.{bag_named};
ghost use Rattle.rules_chains.specs.Chain.{Root};
ghost use Rattle.unwrap_copies.specs.inner.Known.{Agrees};
ghost use Rattle.unwrap_lending.specs.inner.Lending.{LendsTwo};
ghost use Rattle.unwrap_copies.specs.inner.Openers.{CopiesAnswer};
ghost use Rattle.rules_outcome.specs.Roots.{need_of, announced_as};
ghost use Rattle.unwrap_sas.specs.inner.Keyed.{ChecksPassed, found_by, KeyedBy};
ghost use Rattle.unwrap_sas.specs.inner.Policies.{OpensBy, OpeningKeys, spi_at, body_at, PolicyStandsAt, Announces, IsAnnounced, IsOne};

use aes::{INVERSE_TABLE_WORDS, InverseSchedule, expand_inverse, inverse_tables};
use ikev2_numbers::{NO_PROTOCOL, POLICY_HEAD};
use joining::{Keyed, NEW_SAS, One, SasFault, one_sa, rekey_openers};
use state_keys::kinds::WrappingKey;
use state_sa::entry::Sa;
use unwrap_copies::answer::{Copied, CopyFound, no_openers};
use wire_readers::policy::{Parts, policy_parts};

// What the SAs of a frame are opened by. `reads`: fresh tree keys are read from its KD body `kd`. `schedule` is that of key 0. The other
// keys that a KWK ID can name are lent: the frame's own by `carried` and `fresh`, the held ones by `ids` and `block`. The lifetimes of the
// new SAs start at `tick`.
#[derive(Clone, Copy)]
struct Opening<'a> {
    reads: bool,
    kd: &'a [u8],
    tables: &'a [u32; INVERSE_TABLE_WORDS],
    schedule: InverseSchedule,
    carried: &'a [u32],
    fresh: &'a [u8],
    ids: &'a [u32],
    block: &'a [u8],
    tick: u32,
}

// Answers what was found if refusal 8 holds of no SA. `missing`: no copy of some SA opens (refusal 9).
fn found_by(missing: bool) -> Result<(), SasFault>
    ensures { result ≡ found_by missing }
{
    if missing {
        Err(SasFault::KeyMissing)
    } else {
        Ok(())
    }
}

impl<'a> Opening<'a> {
    // Opens the copies of the SA that `protocol` and `spi` name. They stand in its bag, and must open to `need` octets.
    fn copies(&self, protocol: usize, spi: &[u8], need: usize) -> Copied
        requires opens_by { OpensBy self.now.reads self.now.kd.now self.now.tables.now
            self.now.schedule.words self.now.carried.now self.now.fresh.now self.now.ids.now self.now.block.now }
        requires one_bag { count (bag_named protocol spi.now) (flat_map group_bag_of (bags_in self.now.reads self.now.kd.now)) ≡ 1 }
        requires need_le_sa_room { need ≤ sa_room }
        ensures { (roots : List Root) (entries : List WrapKey) (size : ℕ) (f : Frame) (a : GroupSaPolicy) →
            OpeningKeys self.now.schedule.words self.now.carried.now self.now.fresh.now self.now.ids.now self.now.block.now
            roots entries size →
            bags_of f ≡ bags_in self.now.reads self.now.kd.now → a.protocol ≡ protocol → a.spi ≡ spi.now → need_of a ≡ need →
            CopiesAnswer roots entries size (announced_as f a) result }
    {
        let bag = check_pairing::stretch::bag_stretch(self.kd, protocol, spi);
        unwrap_copies::copies(
            wire_attributes::tables::in_bag(self.reads, protocol),
            &self.kd[bag.start..bag.end],
            need,
            self.tables,
            self.schedule,
            self.carried,
            self.fresh,
            self.ids,
            self.block,
        )
    }

    // Makes the SA that `protocol` and `spi` name, out of its policy and its copies. `x` is what the policy holds after its SPI.
    fn with_policy(&self, protocol: usize, spi: &[u8], x: &[u8]) -> One
        requires opens_by { OpensBy self.now.reads self.now.kd.now self.now.tables.now
            self.now.schedule.words self.now.carried.now self.now.fresh.now self.now.ids.now self.now.block.now }
        requires x_len_bound { length x.now < 65536 }
        requires announces { (f : Frame) × (a : GroupSaPolicy) × Announces self.now.reads self.now.kd.now protocol spi.now x.now f a }
        ensures { (roots : List Root) (entries : List WrapKey) (size : ℕ) (f : Frame) (a : GroupSaPolicy) →
            IsAnnounced self.now.reads self.now.kd.now protocol spi.now x.now
            self.now.schedule.words self.now.carried.now self.now.fresh.now self.now.ids.now self.now.block.now
            roots entries size f a → IsOne self.now.tick result roots entries size f a }
    {
        let n = check_suites::needs(x);
        let e = n.encryption;
        let w = n.wrapping;
        let copied = self.copies(protocol, spi, e + w);
        let t = lifetime::of_policy(protocol, x, self.tick);
        one_sa(copied, protocol, spi, e, w, t)
    }

    // Makes the SA of the policy that starts at `at` of the GSA body `g` and has the parts `p`.
    fn policy_at(&self, g: &[u8], at: usize, p: Parts) -> One
        requires opens_by { OpensBy self.now.reads self.now.kd.now self.now.tables.now
            self.now.schedule.words self.now.carried.now self.now.fresh.now self.now.ids.now self.now.block.now }
        requires policy_stands_at { PolicyStandsAt g.now at p }
        requires announces { (f : Frame) × (a : GroupSaPolicy) ×
            Announces self.now.reads self.now.kd.now p.first (spi_at g.now at p) (body_at g.now at p) f a }
        ensures { (roots : List Root) (entries : List WrapKey) (size : ℕ) (f : Frame) (a : GroupSaPolicy) →
            IsAnnounced self.now.reads self.now.kd.now p.first (spi_at g.now at p) (body_at g.now at p)
            self.now.schedule.words self.now.carried.now self.now.fresh.now self.now.ids.now self.now.block.now
            roots entries size f a → IsOne self.now.tick result roots entries size f a }
    {
        let name = at + POLICY_HEAD;
        let body = at + p.body;
        let end = at + p.end;
        self.with_policy(p.first, &g[name..body], &g[body..end])
    }

    // Opens the keys of all SAs that a frame with the GSA body `gsa` announces, as `open_sas` does.
    // A conflict ends the walk. A missing key does not, because a later SA may conflict and refusal 8 comes before 9.
    fn walk(&self, gsa: &[u8]) -> Keyed
        requires opens_by { OpensBy self.now.reads self.now.kd.now self.now.tables.now
            self.now.schedule.words self.now.carried.now self.now.fresh.now self.now.ids.now self.now.block.now }
        requires gsa_value { is_whole (policies 0 gsa.now) ≡ true }
        requires checks_passed { (f : Frame) × ChecksPassed self.now.reads f gsa.now self.now.kd.now }
        ensures { (roots : List Root) (entries : List WrapKey) (size : ℕ) (f : Frame) →
            ChecksPassed self.now.reads f gsa.now self.now.kd.now →
            OpeningKeys self.now.schedule.words self.now.carried.now self.now.fresh.now self.now.ids.now self.now.block.now
            roots entries size →
            KeyedBy roots entries size f self.now.tick result }
    {
        let mut missing = false;
        let mut sas = [Sa::blank(); NEW_SAS];
        let mut count: usize = 0;
        let mut openers = no_openers();
        let mut at: usize = 0;
        while at < gsa.len() {
            let p = policy_parts(&gsa[at..]);
            let end = at + p.end;
            if p.first != NO_PROTOCOL {
                let one = self.policy_at(gsa, at, p);
                match one.found {
                    CopyFound::Conflict => {
                        return Keyed {
                            found: Err(SasFault::KeyConflict),
                            sas,
                            count,
                            openers,
                        };
                    }
                    CopyFound::Nothing => {
                        missing = true;
                    }
                    CopyFound::Key => {
                        sas[count] = one.sa;
                        count += 1;
                        openers = rekey_openers(openers, p.first, one.openers);
                    }
                }
            }
            at = end;
        }
        Keyed {
            found: found_by(missing),
            sas,
            count,
            openers,
        }
    }
}

// Opens the keys of all SAs that a frame announces. `gsa` is its GSA body, `kd` its KD body, and `zero` is key 0. The other keys that a KWK
// ID can name are lent: the frame's own by `carried` and `fresh`, the held ones by `ids` and `block`. The lifetimes of the new SAs start at
// `tick`.
pub fn open_sas<'a>(
    reads: bool,
    gsa: &[u8],
    kd: &[u8],
    zero: WrappingKey,
    carried: &[u32],
    fresh: &'a [u8],
    ids: &[u32],
    block: &'a [u8],
    tick: u32,
) -> Keyed
    requires gsa_value { is_whole (policies 0 gsa.now) ≡ true }
    requires kd_value { is_whole (bags reads 0 kd.now) ≡ true }
    requires count_value { is_wrapping_size zero.count ≡ true }
    requires lends_two { (new : List HeldKey) × (old : List HeldKey) × LendsTwo new old carried.now fresh.now ids.now block.now }
    requires checks_passed { (f : Frame) × ChecksPassed reads f gsa.now kd.now }
    ensures { (roots : List Root) (entries : List WrapKey) (size : ℕ) (f : Frame) (new old : List HeldKey) →
        ChecksPassed reads f gsa.now kd.now →
        LendsTwo new old carried.now fresh.now ids.now block.now →
        Agrees roots entries size zero new old → KeyedBy roots entries size f tick result }
{
    let tables = inverse_tables();
    let octets = zero.octets;
    let schedule = expand_inverse(&tables, &octets[..zero.count]);
    let opening = Opening {
        reads,
        kd,
        tables: &tables,
        schedule,
        carried,
        fresh,
        ids,
        block,
        tick,
    };
    opening.walk(gsa)
}
