// The facts of a frame whose layout is whole: of its payloads, of the policies of its GSA and of the key bags of its KD, in one walk each.
ghost use Rattle.std.specs.Prelude.{◌≡◌, true, []};
ghost use Rattle.octets.specs.Walk.{whole};
ghost use Rattle.wire_frames.specs.Frame.{Frame, frame};
ghost use Rattle.wire_readers.specs.inner.Values.{is_whole};
ghost use Rattle.rules_refusals.specs.Contents.{row_of};
ghost use Rattle.check_judging.specs.inner.Facts.{frame_facts_of};

use check_bagkeys::{BagFacts, KdFacts, kd_facts};
use check_composition::{PolicyFacts, policy_facts};
use check_payloads::{PayloadFacts, payload_facts};
use wire_frames::exchanges::Exchange;
use wire_readers::Stretch;

// The facts of one frame.
#[derive(Clone, Copy)]
pub struct Facts {
    pub payloads: PayloadFacts,
    pub policies: PolicyFacts,
    pub bags: BagFacts,
    // where the attributes of the first Member Key Bag stand in the body of the KD; an empty stretch if there is none
    pub member_bag: Stretch,
}

// Collects the facts of frame `s` for a member with this `profile`. `row` is the row of the frame's exchange.
pub fn facts_of(profile: bool, row: Exchange, s: &[u8]) -> Facts
    requires s_value { is_whole (frame profile s.now) ≡ true }
    requires f_value { (f : Frame) → frame profile s.now ≡ whole f [] → row_of f ≡ row }
    ensures { result ≡ frame_facts_of profile row s.now }
{
    let payloads = payload_facts(s);
    let gsa = payloads.gsa;
    let policies = policy_facts(row.authentication, &s[gsa.start..gsa.end]);
    let kd = payloads.kd;
    let fresh = profile & row.reads_fresh_keys;
    let KdFacts { bags, member_bag } = kd_facts(fresh, &s[kd.start..kd.end]);
    Facts {
        payloads,
        policies,
        bags,
        member_bag,
    }
}
