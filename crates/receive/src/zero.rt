// Finds key 0 of a frame.
ghost use Rattle.std.specs.Prelude.{◌≡◌, true, List, ℕ};
ghost use Rattle.state_keys.specs.Limits.{limits};
ghost use Rattle.lists.specs.Lists.{any};
ghost use Rattle.wire_frames.specs.Frame.{Frame};
ghost use Rattle.wire_frames.specs.declared.exchanges.Exchange.{Exchange};
ghost use Rattle.wire_readers.specs.declared.Stretch.{Stretch};
ghost use Rattle.state_sa.specs.Entry.{live_rekey};
ghost use Rattle.state_table.specs.Table.{sas_of, table_formed};
ghost use Rattle.state.specs.declared.State.{State};
ghost use Rattle.receive.specs.inner.Passing.{Bagged, IsDefaultKey};
ghost use Rattle.receive.specs.inner.Opening.{IsKeyZero};

use state_keys::kinds::WrappingKey;
use state_table::Table;
use wire_frames::exchanges::KeyZero;

// Answers the default key of the live Rekey SA of the table `t`: the second part of its keying octets. The table must have such an SA.
pub fn default_key(t: Table) -> WrappingKey
    requires { (table_formed limits t ≡ true) × (any live_rekey (sas_of t) ≡ true) }
    ensures { IsDefaultKey t result }
{
    let s = t.live_rekey().unwrap();
    s.rekey_key().key_wrap_part().unwrap()
}

// Answers key 0 of a frame: `lent`, or the default key of the live Rekey SA of the member's table `t` as it stands at `tick`. `zero` says
// whose key it is in the frame's exchange.
pub fn key_zero(t: Table, zero: KeyZero, lent: &[u8], tick: u32) -> WrappingKey
    requires { (e : Exchange) × (m : State) × (g : List ℕ) × (k : List ℕ) × (bag : Stretch) × (f : Frame) ×
        (m.table ≡ t) × (e.zero ≡ zero) × Bagged e m tick lent.now g k bag f }
    ensures { (e : Exchange) (m : State) (g k : List ℕ) (bag : Stretch) (f : Frame) → m.table ≡ t → e.zero ≡ zero →
        Bagged e m tick lent.now g k bag f → IsKeyZero m tick lent.now f result }
{
    match zero {
        KeyZero::Lent => WrappingKey::new(lent).unwrap(),
        KeyZero::RekeySa => default_key(t.sweep(tick)),
    }
}
