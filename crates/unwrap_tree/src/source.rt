// Finds where the entries of a frame stand: the WRAP_KEYs of a registration in its Member Key Bag, the fresh tree keys of a rekey in the
// bag of its Rekey SA (document 02, T-11).
ghost use Rattle.std.specs.Prelude.{◌≡◌, true};
ghost use Rattle.wire_policies.specs.Policy.{policies};
ghost use Rattle.wire_bags.specs.Bag.{bags};
ghost use Rattle.wire_frames.specs.Frame.{Frame};
ghost use Rattle.wire_readers.specs.inner.Values.{is_whole};
ghost use Rattle.unwrap_tree.specs.inner.Source.{FindsRekey, FreshSource, FreshStand, Sourced, EntriesStand};

use check_pairing::stretch::bag_stretch;
use ikev2_numbers::{GIKE_UPDATE, POLICY_HEAD};
use wire_attributes::tables::{Meaning, Place};
use wire_readers::Stretch;
use wire_readers::policy::policy_parts;

// Where entries stand: those attributes that mean `meaning` in the bag of the place `place`, whose attributes are the stretch `bag` of the
// KD body.
#[derive(Clone, Copy)]
pub struct Source {
    pub bag: Stretch,
    pub meaning: Meaning,
    pub place: Place,
}

// Finds the first Rekey policy of the GSA body `gsa`. Answers where its SPI stands.
fn rekey_spi(gsa: &[u8]) -> Option<Stretch>
    requires { is_whole (policies 0 gsa.now) ≡ true }
    ensures { FindsRekey gsa.now result }
{
    let mut at: usize = 0;
    while at < gsa.len() {
        let p = policy_parts(&gsa[at..]);
        if p.first == GIKE_UPDATE {
            let start = at + POLICY_HEAD;
            let end = at + p.body;
            return Some(Stretch { start, end });
        }
        at += p.end;
    }
    None
}

// Finds the fresh tree keys of a frame: they stand in the bag of the Rekey SA that it announces, if it does. `gsa` is its GSA body, `kd` its
// KD body.
fn fresh_source(gsa: &[u8], kd: &[u8]) -> Option<Source>
    requires gsa_value { (is_whole (policies 0 gsa.now) ≡ true) × (is_whole (bags true 0 kd.now) ≡ true) }
    requires fresh_source { (f : Frame) × FreshSource f gsa.now kd.now }
    ensures { (f : Frame) → FreshSource f gsa.now kd.now → FreshStand kd.now f result }
{
    let spi = rekey_spi(gsa)?;
    let bag = bag_stretch(kd, GIKE_UPDATE, &gsa[spi.start..spi.end]);
    Some(Source {
        bag,
        meaning: Meaning::FreshKey,
        place: Place::FreshRekeyBag,
    })
}

// Finds the entries of a frame, if it has any. `registers`: it is a registration, whose Member Key Bag has the attributes `bag` of the KD body `kd`.
// `reads`: fresh tree keys are read from it. `gsa` is its GSA body.
pub fn entries_at(
    registers: bool,
    reads: bool,
    gsa: &[u8],
    kd: &[u8],
    bag: Stretch,
) -> Option<Source>
    requires gsa_value { (is_whole (policies 0 gsa.now) ≡ true) × (is_whole (bags reads 0 kd.now) ≡ true) }
    requires sourced { (f : Frame) × Sourced registers reads f gsa.now kd.now bag }
    ensures { (f : Frame) → Sourced registers reads f gsa.now kd.now bag
        → EntriesStand kd.now f result }
{
    if registers {
        return Some(Source {
            bag,
            meaning: Meaning::WrapKey,
            place: Place::MemberBag,
        });
    }
    if reads {
        return fresh_source(gsa, kd);
    }
    None
}
