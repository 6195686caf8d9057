// Decides a frame that refusals 2 to 7 let pass, of any exchange: opens its keys and finds its outcome.
ghost use Rattle.std.specs.Prelude.{◌≡◌, true};
ghost use Rattle.wire_policies.specs.Policy.{policies};
ghost use Rattle.wire_frames.specs.Frame.{Frame};
ghost use Rattle.wire_readers.specs.inner.Values.{is_whole};
ghost use Rattle.receive.specs.inner.Passing.{Passed, Bodied, Decided};

use crate::opening::open_keys;
use crate::zero::key_zero;
use crate::{conclude, row_of};
use check_judging::facts::Facts;
use check_judging::numbers::Refusal;
use state::State;

// Decides the frame with the facts `x`, whose GSA has the body `gsa` and whose KD has the body `kd`.
fn by_bodies(
    state: State,
    frame: &[u8],
    x: Facts,
    gsa: &[u8],
    kd: &[u8],
    lent: &[u8],
    tick: u32,
) -> Result<State, Refusal>
    requires gsa_value { is_whole (policies 0 gsa.now) ≡ true }
    requires bodied { (f : Frame) × Bodied state tick lent.now frame.now x gsa.now kd.now f }
    ensures { (f : Frame) →
        Bodied state tick lent.now frame.now x gsa.now kd.now f →
        Decided state tick lent.now f result }
{
    let row = row_of(frame);
    let table = state.table;
    let of = row.zero;
    let zero = key_zero(table, of, lent, tick);
    let held = state.held;
    let reads = state.profile & row.reads_fresh_keys;
    let opened = open_keys(held, row, zero, reads, gsa, kd, x.member_bag, tick);
    conclude(state, frame, x, tick, opened)
}

// Decides the frame with the facts `x`. `lent` is the lent key. Answers the state after acceptance, or refusal 7, 8 or 9.
pub fn decide(
    state: State,
    frame: &[u8],
    x: Facts,
    lent: &[u8],
    tick: u32,
) -> Result<State, Refusal>
    requires { (f : Frame) × Passed state tick lent.now frame.now x f }
    ensures { (f : Frame) → Passed state tick lent.now frame.now x f →
        Decided state tick lent.now f result }
{
    let b = x.payloads;
    let gsa = b.gsa;
    let kd = b.kd;
    let a = gsa.start;
    let e = gsa.end;
    let i = kd.start;
    let j = kd.end;
    by_bodies(state, frame, x, &frame[a..e], &frame[i..j], lent, tick)
}
