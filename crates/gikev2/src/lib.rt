// A group member: what a customer of the library holds.
#![tactic(auto)]

pub mod call;
pub mod fragment;
pub mod sealed;

ghost use Rattle.std.specs.Prelude.{◌≡◌};
ghost use Rattle.gikev2.specs.Member.{new_member, member_with, swept_member, left_member, answer_of, sa_answer};

use state::State;
use state_keys::rooms::SA_OCTETS;
use state_sa::entry::{Condition, Lifetime, REKEY, Sa};

// A group member. It is a value: a call that changes the member takes it and gives back the next one.
#[derive(Clone, Copy, PartialEq, Eq)]
pub struct Member {
    pub state: State,
}

// The answer of `Member::sa`, where the member has the SA: its keying octets, the octet counts of their two parts (of a Rekey SA), its
// condition and its lifetime. All else is blank.
// Kept as an array with its count, since memory is fixed.
#[derive(Clone, Copy)]
pub struct SaAnswer {
    pub octets: [u8; SA_OCTETS],
    pub count: usize,
    pub encryption: usize,
    pub wrapping: usize,
    pub condition: Condition,
    pub lifetime: Lifetime,
}

// Makes the answer for the SA `s` of a member. Octets past the count are blank, and only a Rekey SA has counts of two parts.
fn answer(s: Sa) -> SaAnswer
    ensures { result ≡ answer_of s }
{
    let count = s.count;
    let mut n = count;
    if SA_OCTETS < n {
        n = SA_OCTETS;
    }
    let o = s.octets;
    let mut octets = [0u8; SA_OCTETS];
    octets::copying::copy(&o[0..n], &mut octets);
    let mut encryption: usize = 0;
    let mut wrapping: usize = 0;
    if s.protocol == REKEY {
        encryption = s.encryption;
        wrapping = s.wrapping;
    }
    let condition = s.condition;
    let lifetime = s.lifetime;
    SaAnswer {
        octets,
        count,
        encryption,
        wrapping,
        condition,
        lifetime,
    }
}

impl Member {
    // Makes a new member without the profile: no SA, no held key, least Message ID 0.
    pub fn new() -> Member
        ensures { result ≡ new_member }
    {
        Member::with_profile(false)
    }

    // Makes a new member with or without the profile (document 02, T-11). With it the member reads fresh tree keys in a GSA_REKEY.
    pub fn with_profile(profile: bool) -> Member
        ensures { result ≡ member_with profile }
    {
        let state = State::with_profile(profile);
        Member { state }
    }

    // Removes the SAs that are due at `tick`. A member value that breaks its list (document 01) stays as it is.
    pub fn sweep(self, tick: u32) -> Member
        ensures { result ≡ swept_member tick self }
    {
        let s = self.state;
        let state = s.sweep(tick);
        Member { state }
    }

    // Leaves the group. Answers the new member with the profile that the member had, whatever else it was.
    pub fn leave(self) -> Member
        ensures { result ≡ left_member self }
    {
        let s = self.state;
        Member::with_profile(s.profile)
    }

    // Answers the keying octets, condition and lifetime of the SA with this `protocol` and `spi`, or that the member has none.
    pub fn sa(self, protocol: u8, spi: &[u8]) -> Option<SaAnswer>
        ensures { result ≡ sa_answer protocol spi.now self }
    {
        let s = self.state;
        let a = s.find(protocol, spi)?;
        Some(answer(a))
    }
}
