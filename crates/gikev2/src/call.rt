// Receives an opened frame.
ghost use Rattle.std.specs.Prelude.{◌≡◌, []};
ghost use Rattle.octets.specs.Walk.{whole};
ghost use Rattle.wire_frames.specs.Frame.{Frame, frame};
ghost use Rattle.check_judging.specs.inner.Verdicts.{number_of_refusal};
ghost use Rattle.receive.specs.inner.Passing.{Decided};
ghost use Rattle.gikev2.specs.Receive.{number_of, figure_of, Receives};

use crate::Member;
use check_judging::numbers::Refusal;
use check_judging::refusal::refusal;
use receive::deciding::decide;
use state::State;

// What becomes of a frame. Kept as one list and not a `Result`: document 01 numbers acceptance among the answers, as 0.
#[derive(Clone, Copy, Debug, PartialEq, Eq)]
pub enum Answer {
    Accepted,
    // the octets are not laid out as a frame; the offset of the structure that broke first, 0 for the header
    BrokenLayout(usize),
    // another exchange, a registration of a member that is not empty, a rekey over other SPIs, one in-band of an empty member, or a member
    // value that breaks its list
    NotForMember,
    // a rekey over the Rekey SA whose Message ID is below the least acceptable, or none is acceptable any more
    Replayed,
    // payloads, policies or bags that a frame of its exchange cannot have together
    BadComposition,
    // a protocol, transforms or a lent key's size that are not supported
    Unsupported,
    // policies and bags that do not pair, or keys in them that should not be there
    Unpaired,
    // more of something than a frame or a table may hold
    OverLimit,
    // a wrapping that opens to a wrong size, or one key with two values
    KeyConflict,
    // an SA no copy of whose key opens
    NoKey,
    // a sealed frame that does not open, or a room under 16,384 octets (document 02, T-05); `receive` never answers it
    Unopened,
}

impl Answer {
    // Answers document 01's number of the answer, 0 for acceptance.
    pub fn number(self) -> usize
        ensures { result ≡ number_of self }
    {
        match self {
            Answer::Accepted => 0,
            Answer::BrokenLayout(_) => 1,
            Answer::NotForMember => 2,
            Answer::Replayed => 3,
            Answer::BadComposition => 4,
            Answer::Unsupported => 5,
            Answer::Unpaired => 6,
            Answer::OverLimit => 7,
            Answer::KeyConflict => 8,
            Answer::NoKey => 9,
            Answer::Unopened => 10,
        }
    }

    // Answers the figure that the answer carries (document 02, T-06): on number 1 the offset, else 0.
    pub fn figure(self) -> usize
        ensures { result ≡ figure_of self }
    {
        match self {
            Answer::BrokenLayout(at) => at,
            _ => 0,
        }
    }
}

// The answer and the next member. On a refusal that is the member as it was.
#[derive(Clone, Copy)]
pub struct Received {
    pub answer: Answer,
    pub member: Member,
}

// Answers document 01's number of the refusal.
impl From<Refusal> for Answer {
    ghost from_gives = { λ r a. number_of a ≡ number_of_refusal r };

    fn from(refusal: Refusal) -> Answer {
        match refusal {
            Refusal::NotForMember => Answer::NotForMember,
            Refusal::Replayed => Answer::Replayed,
            Refusal::BadComposition => Answer::BadComposition,
            Refusal::Unsupported => Answer::Unsupported,
            Refusal::Unpaired => Answer::Unpaired,
            Refusal::OverLimit => Answer::OverLimit,
            Refusal::KeyConflict => Answer::KeyConflict,
            Refusal::NoKey => Answer::NoKey,
        }
    }
}

// Judges the frame `s`, whose layout is whole: refusals 2 to 7 first, then 8 and 9. Answers the state after acceptance.
fn judge(state: State, s: &[u8], lent: &[u8], tick: u32) -> Result<State, Refusal>
    requires { (f : Frame) × (frame state.profile s.now ≡ whole f []) }
    ensures { (f : Frame) → frame state.profile s.now ≡ whole f [] → Decided state tick lent.now f result }
{
    let x = refusal(state, s, lent, tick)?;
    decide(state, s, x, lent, tick)
}

impl Member {
    // Refuses a frame with this `answer`. The member stays as it was.
    pub(crate) fn refuse(self, answer: Answer) -> Received
        ensures { (result.answer ≡ answer) × (result.member ≡ self) }
    {
        Received {
            answer,
            member: self,
        }
    }

    // Receives the octets of an opened `frame`: the IKE header and the payloads. A registration (GSA_AUTH, GSA_REGISTRATION) comes with a
    // default key in `lent`, and so does a rekey over the member's own channel (GSA_INBAND_REKEY). For a rekey over the Rekey SA
    // (GSA_REKEY) `lent` is not read.
    pub fn receive(self, frame: &[u8], lent: &[u8], tick: u32) -> Received
        ensures { Receives self tick lent.now frame.now result.answer result.member }
    {
        let mut member = self;
        let answer = match wire_frames::layout_with_profile(member.state.profile, frame) {
            Err(broken) => Answer::BrokenLayout(broken.at),
            Ok(()) => match judge(member.state, frame, lent, tick) {
                Ok(next) => {
                    member.state = next;
                    Answer::Accepted
                }
                Err(refusal) => refusal.into(),
            },
        };
        Received { answer, member }
    }
}
