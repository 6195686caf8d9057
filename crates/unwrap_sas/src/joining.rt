// Makes the SA of one policy. The results: for one SA, and for all SAs of a frame.
ghost use Rattle.std.specs.Prelude.{◌≡◌, List, ℕ, ◌+◌, take};
ghost use Rattle.wire_attributes.specs.Tree.{WrapKey};
ghost use Rattle.wire_policies.specs.Policy.{GroupSaPolicy};
ghost use Rattle.wire_frames.specs.Frame.{Frame};
ghost use Rattle.rules_chains.specs.Chain.{Root};
ghost use Rattle.rules_outcome.specs.After.{sa_from};
ghost use Rattle.unwrap_sas.specs.inner.Policies.{Sized, PolicyGives, IsOpened, IsOne};

use ikev2_numbers::{ESP, GIKE_UPDATE};
use state_keys::kinds::{EspKey, RekeyKey};
use state_keys::limits::ESP_POLICIES;
use state_keys::rooms::SA_OCTETS;
use state_sa::entry::{Lifetime, Sa};
use unwrap_copies::answer::{Copied, CopyFound, Openers, no_openers};

// Room for the SAs that a frame announces: as many ESP SAs as it may have, and a Rekey SA.
pub const NEW_SAS: usize = ESP_POLICIES + 1;

// Why the SAs that a frame announces have not all their keys.
#[derive(Clone, Copy, Debug, PartialEq, Eq)]
pub enum SasFault {
    // refusal 8 holds of the copies of some SA
    KeyConflict,
    // it holds of none, but some SA has no copy that opens (refusal 9)
    KeyMissing,
}

// The result for all SAs that a frame announces. If each has its key, the new SAs are the first `count` of `sas`, and `openers` are the KWK
// IDs of the copies of the Rekey SA's key that open. Kept as arrays with the result behind them: behind a mark the compiler gives an array
// that is handed on more room (docs/landings/T-11.md).
// Kept as an array with its count, since memory is fixed.
#[derive(Clone, Copy)]
pub struct Keyed {
    pub sas: [Sa; NEW_SAS],
    pub count: usize,
    pub openers: Openers,
    pub found: Result<(), SasFault>,
}

// The result for one SA. With `Key`, `sa` is the SA and `openers` are the KWK IDs of its copies that open; else `sa` is blank.
#[derive(Clone, Copy)]
pub struct One {
    pub found: CopyFound,
    pub sa: Sa,
    pub openers: Openers,
}

// Makes a result with a blank SA.
fn one_without(found: CopyFound) -> One
    ensures { result.found ≡ found }
{
    let sa = Sa::blank();
    let openers = no_openers();
    One { found, sa, openers }
}

// Makes the SA of a policy with this `protocol`, `spi` and `lifetime`. Its keying octets are the first `encryption + wrapping` of `octets`,
// as many as its transforms need. Those of a Rekey SA are cut in two behind the encryption key.
fn sa_from(
    protocol: usize,
    spi: &[u8],
    encryption: usize,
    wrapping: usize,
    octets: [u8; SA_OCTETS],
    lifetime: Lifetime,
) -> Sa
    requires { Sized protocol spi.now encryption wrapping }
    ensures { (tick : ℕ) (a : GroupSaPolicy) → PolicyGives protocol spi.now encryption wrapping lifetime tick a →
        result ≡ sa_from tick a (take (encryption + wrapping) octets) }
{
    if protocol == ESP {
        let key = EspKey::new(&octets[0..encryption]).unwrap();
        return Sa::esp(spi, key, lifetime);
    }
    let all = encryption + wrapping;
    let key = RekeyKey::new(&octets[0..all], encryption, wrapping).unwrap();
    Sa::rekey(spi, key, lifetime)
}

// Makes the result for one SA, out of the result `one` of its copies. Its policy has this `protocol`, `spi` and `lifetime`, and its
// transforms need `encryption` and `wrapping` octets.
pub fn one_sa(
    one: Copied,
    protocol: usize,
    spi: &[u8],
    encryption: usize,
    wrapping: usize,
    lifetime: Lifetime,
) -> One
    requires { Sized protocol spi.now encryption wrapping }
    ensures { (tick : ℕ) (roots : List Root) (entries : List WrapKey) (size : ℕ) (f : Frame) (a : GroupSaPolicy) →
        IsOpened protocol spi.now encryption wrapping lifetime tick one roots entries size f a →
        IsOne tick result roots entries size f a }
{
    let opened = one.opened;
    let found = opened.found;
    match found {
        CopyFound::Conflict => one_without(CopyFound::Conflict),
        CopyFound::Nothing => one_without(CopyFound::Nothing),
        CopyFound::Key => {
            let octets = opened.octets;
            let openers = one.openers;
            let sa = sa_from(protocol, spi, encryption, wrapping, octets, lifetime);
            One {
                found: CopyFound::Key,
                sa,
                openers,
            }
        }
    }
}

// Answers the openers after one more SA: those of a Rekey SA, or else the earlier ones.
pub fn rekey_openers(earlier: Openers, protocol: usize, own: Openers) -> Openers
    ensures { (protocol ≡ 6 → result ≡ own) × ((protocol ≡ 6 → ⊥) → result ≡ earlier) }
{
    if protocol == GIKE_UPDATE {
        return own;
    }
    earlier
}
