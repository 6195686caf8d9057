// The judging order: "The lowest number that applies is given; each is judged only when the lower ones don't apply".
ghost use Rattle.std.specs.Prelude.{◌≡◌, true, [], ◌≤◌, MatchResult};
ghost use Rattle.octets.specs.Walk.{whole};
ghost use Rattle.state_keys.specs.Limits.{limits};
ghost use Rattle.wire_frames.specs.Frame.{Frame, frame};
ghost use Rattle.wire_readers.specs.inner.Values.{is_whole};
ghost use Rattle.rules_refusals.specs.Contents.{row_of};
ghost use Rattle.rules_refusals.specs.Refusals.{judged, on_frame, refusal as refusalOf};
ghost use Rattle.check_judging.specs.inner.Facts.{frame_facts_of};
ghost use Rattle.check_judging.specs.inner.Verdicts.{number_of_refusal, VerdictBy};

use crate::facts::{Facts, facts_of};
use crate::number4::number_4;
use crate::number5::number_5;
use crate::number6::number_6;
use crate::number7::number_7;
use crate::numbers::Refusal;
use check_admission::number2::number_2;
use check_admission::number3::number_3;
use state::State;
use wire_frames::exchanges::{Exchange, exchange_of};

// Judges numbers 4 to 7 for frame `s` with the facts `x`. `row` is the row of its exchange, `lent` the lent key.
fn on_facts(
    state: State,
    row: Exchange,
    s: &[u8],
    x: Facts,
    lent: &[u8],
    tick: u32,
) -> Result<(), Refusal>
    requires count_le_sas { state.table.count ≤ limits.sas }
    requires s_value { is_whole (frame state.profile s.now) ≡ true }
    requires x_value { x ≡ frame_facts_of state.profile row s.now }
    requires f_value { (f : Frame) → frame state.profile s.now ≡ whole f [] → row_of f ≡ row }
    ensures { (f : Frame) → frame state.profile s.now ≡ whole f [] →
        MatchResult result (λ u. judged (on_frame limits state tick lent.now f) ≡ 0)
        (λ r. judged (on_frame limits state tick lent.now f) ≡ number_of_refusal r) }
{
    if number_4(row, x) {
        return Err(Refusal::BadComposition);
    }
    if number_5(row, lent.len(), x) {
        return Err(Refusal::Unsupported);
    }
    let t = state.table;
    let b = x.payloads;
    let g = b.gsa;
    let k = b.kd;
    let a = g.start;
    let e = g.end;
    let i = k.start;
    let j = k.end;
    if number_6(row, x, &s[a..e], &s[i..j], t, tick) {
        return Err(Refusal::Unpaired);
    }
    if number_7(x, t.count_standing(tick)) {
        return Err(Refusal::OverLimit);
    }
    Ok(())
}

// Collects the facts of frame `s` and judges numbers 4 to 7. `row` is the row of its exchange, `lent` the lent key.
fn on_frame(state: State, row: Exchange, s: &[u8], lent: &[u8], tick: u32) -> Result<Facts, Refusal>
    requires count_le_sas { state.table.count ≤ limits.sas }
    requires s_value { is_whole (frame state.profile s.now) ≡ true }
    requires f_value { (f : Frame) → frame state.profile s.now ≡ whole f [] → row_of f ≡ row }
    ensures { (f : Frame) → frame state.profile s.now ≡ whole f [] →
        VerdictBy (judged (on_frame limits state tick lent.now f)) (frame_facts_of state.profile row s.now) result }
{
    let x = facts_of(state.profile, row, s);
    on_facts(state, row, s, x, lent, tick)?;
    Ok(x)
}

// Judges numbers 2 to 7 for frame `s`, handed to `state` at `tick` with the lent key `lent`: the first that applies or, if none does, the
// facts of the frame for the steps that follow.
pub fn refusal(state: State, s: &[u8], lent: &[u8], tick: u32) -> Result<Facts, Refusal>
    requires { is_whole (frame state.profile s.now) ≡ true }
    ensures { (f : Frame) → frame state.profile s.now ≡ whole f [] →
        VerdictBy (refusalOf limits state tick lent.now f) (frame_facts_of state.profile (row_of f) s.now) result }
{
    match wire_frames::read_header(s) {
        Some(header) => {
            let exchange = header.exchange;
            if number_2(state, exchange, &s[0..16], tick) {
                return Err(Refusal::NotForMember);
            }
            if number_3(state, exchange, header.message_id) {
                return Err(Refusal::Replayed);
            }
            on_frame(state, exchange_of(exchange), s, lent, tick)
        }
        None => unreachable!(),
    }
}
