// Makes the state of a member after an accepted frame: its old SAs, the new ones, the held list and the least Message ID.
ghost use Rattle.std.specs.Prelude.{◌≡◌, cond, ◌+◌, ◌≤◌, length, take};
ghost use Rattle.state_keys.specs.Limits.{limits};
ghost use Rattle.wire_frames.specs.Frame.{Frame};
ghost use Rattle.state_table.specs.Table.{table_of};
ghost use Rattle.state.specs.declared.State.{State};
ghost use Rattle.state.specs.declared.least.Least.TheVariants.{Id};
ghost use Rattle.rules_refusals.specs.Number2.{not_due_sas};
ghost use Rattle.rules_outcome.specs.After.{old_sas, least_by};
ghost use Rattle.unwrap_sas.specs.inner.Keyed.{new_sas};
ghost use Rattle.apply.specs.inner.Following.{Told, Follows};

use crate::entering::enter_all;
use crate::retiring::{DeletesAt, retired_by_frame};
use crate::standing::keep_standing;
use state::State;
use state::held::Held;
use state::least::Least;
use state_sa::entry::Sa;
use state_table::Table;
use unwrap_sas::joining::NEW_SAS;
use wire_frames::exchanges::LeastAfter;

// What an accepted frame says of the member afterwards.
#[derive(Clone, Copy)]
pub struct Said {
    // the deactivation delay
    pub delay: u16,
    // whether the frame announces a Rekey SA, and the first Message ID of it
    pub rekey: bool,
    pub initial: u32,
    // what the exchange makes of the least Message ID, and the frame's own Message ID
    pub least: LeastAfter,
    pub id: u32,
    pub deletes: DeletesAt,
}

// Makes the table of the old SAs, those of before the frame `s`. Those that are due go; the old Rekey SA retires if the frame announces a
// new one; those that its Delete payloads name retire.
fn old_sas(t: Table, s: &[u8], tick: u32, x: Said) -> Table
    requires told { (f : Frame) × Told s.now x f }
    requires count_le_sas { t.count ≤ limits.sas }
    ensures { (f : Frame) (m : State) → Told s.now x f → m.table ≡ t → result ≡ table_of limits (old_sas m tick f) }
{
    let d = x.deletes;
    let stand = keep_standing(t, x.rekey, tick, x.delay);
    retired_by_frame(stand, s, d, tick, x.delay)
}

// Answers the least acceptable Message ID after the frame: the first one of a new Rekey SA, or what the exchange makes of `before`.
fn least_by(x: Said, before: Least) -> Least
    ensures { result ≡ cond x.rekey (Id x.initial) (least_by x.least x.id before) }
{
    if x.rekey {
        return Least::Id(x.initial);
    }
    let least = x.least;
    match least {
        LeastAfter::Zero => Least::Id(0),
        LeastAfter::OwnPlusOne => Least::after(x.id),
        LeastAfter::Kept => before,
    }
}

// Makes the state after the accepted frame `s`. `x` is what the frame says of the member, the first `n` of `new` are the new SAs, and
// `held` is the held list afterwards.
pub fn next(
    state: State,
    s: &[u8],
    tick: u32,
    x: Said,
    new: [Sa; NEW_SAS],
    n: usize,
    held: Held,
) -> State
    requires told { (f : Frame) × Told s.now x f }
    requires count_le_sas { (state.table.count ≤ limits.sas) × (length (not_due_sas tick state) + n ≤ limits.sas) × (n ≤ new_sas) }
    ensures { (f : Frame) → Told s.now x f → Follows state tick f (take n new) held result }
{
    let t = state.table;
    let old = old_sas(t, s, tick, x);
    let table = enter_all(old, new, n);
    let before = state.least;
    let least = least_by(x, before);
    let profile = state.profile;
    State {
        table,
        held,
        least,
        profile,
    }
}
