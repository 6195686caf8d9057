// Finds the outcome of a frame that refusals 2 to 7 let pass: refusal 8, refusal 9, or the state after acceptance.
// Internal: crates of this repository alone call it.
#![tactic(auto)]

pub mod deciding;
pub mod opening;
pub mod said;
pub mod zero;

ghost use Rattle.std.specs.Prelude.{◌≡◌, Bool, true, List, [], ℕ, MatchResult};
ghost use Rattle.octets.specs.Walk.{whole};
ghost use Rattle.wire_frames.specs.Frame.{Frame, frame};
ghost use Rattle.wire_readers.specs.inner.Values.{is_whole};
ghost use Rattle.rules_refusals.specs.Contents.{row_of};
ghost use Rattle.check_judging.specs.inner.Verdicts.{number_of_refusal};
ghost use Rattle.receive.specs.inner.Passing.{Decided};
ghost use Rattle.receive.specs.inner.Opening.{number_of_keys, FrameWithKeys};

use apply::next::next;
use check_judging::facts::Facts;
use check_judging::numbers::Refusal;
use ikev2_numbers::EXCHANGE_AT;
use opening::KeysFound;
use state::State;
use unwrap_sas::joining::SasFault;
use wire_frames::exchanges::{Exchange, exchange_of};

// Reads the exchange of the frame `s`. Answers its row: what the exchange makes different.
pub fn row_of(s: &[u8]) -> Exchange
    requires { (profile : Bool) × (is_whole (frame profile s.now) ≡ true) }
    ensures { (profile : Bool) (f : Frame) → frame profile s.now ≡ whole f [] → row_of f ≡ result }
{
    exchange_of(octets::wide(s[EXCHANGE_AT]))
}

// Whether the keys of a frame let it pass: refusal 8 if it holds of the entries (`conflict`) or of some SA's copies, refusal 9 if some SA
// has no key, refusal 7 if the held list after acceptance would be over its limit (`over`): "Over 128 then is 7, judged after 9"
// (document 02, T-11).
fn judge_keys(conflict: bool, found: Result<(), SasFault>, over: bool) -> Result<(), Refusal>
    ensures { MatchResult result (λ u. number_of_keys conflict found over ≡ 0)
        (λ r. number_of_keys conflict found over ≡ number_of_refusal r) }
{
    if conflict {
        return Err(Refusal::KeyConflict);
    }
    match found {
        Err(SasFault::KeyConflict) => Err(Refusal::KeyConflict),
        Err(SasFault::KeyMissing) => Err(Refusal::NoKey),
        Ok(()) if over => Err(Refusal::OverLimit),
        Ok(()) => Ok(()),
    }
}

// Answers the state after acceptance of a frame once its keys are opened, or why they refuse it. `x` are its facts.
pub fn conclude(
    state: State,
    frame: &[u8],
    x: Facts,
    tick: u32,
    opened: KeysFound,
) -> Result<State, Refusal>
    requires { (f : Frame) × (lent : List ℕ) × FrameWithKeys state tick lent frame.now x opened f }
    ensures { (f : Frame) (lent : List ℕ) → FrameWithKeys state tick lent frame.now x opened f → Decided state tick lent f result }
{
    let keyed = opened.keyed;
    judge_keys(opened.conflict, keyed.found, opened.over)?;
    let said = said::said(row_of(frame), frame, x);
    let after = next(
        state,
        frame,
        tick,
        said,
        keyed.sas,
        keyed.count,
        opened.held,
    );
    Ok(after)
}
