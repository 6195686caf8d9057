// Number 2: a frame that is not for this member.
ghost use Rattle.std.specs.Prelude.{◌≡◌, ◌≤◌};
ghost use Rattle.state_keys.specs.Limits.{limits};
ghost use Rattle.lists.specs.Lists.{any};
ghost use Rattle.state_table.specs.Table.{sas_of, not_due, empty_at};
ghost use Rattle.rules_refusals.specs.Number2.{breaks_wanted, over_live_rekey};
ghost use Rattle.rules_refusals.specs.Refusals.{number2, applies};
ghost use Rattle.check_admission.specs.inner.Steps.{is_over, barred};

use state::State;
use state_sa::entry::{REKEY, Sa};
use state_table::Table;
use wire_frames::exchanges::{Exchange, Wanted};

// Whether `s` is a live Rekey SA with SPI `spi` and not due at `tick`.
#[tactic(auto, unfolding(crate::specs::inner::Steps::is_over))]
fn is_over(s: Sa, spi: &[u8], tick: u32) -> bool
    ensures { result ≡ is_over tick spi.now s }
{
    !s.due(tick) && s.is_live_rekey() && s.is_named(REKEY, spi)
}

// Whether table `t` has a live Rekey SA with SPI `spi` that is not due at `tick`.
fn has_live_rekey(t: Table, spi: &[u8], tick: u32) -> bool
    requires { t.count ≤ limits.sas }
    ensures { result ≡ any (over_live_rekey spi.now) (not_due tick (sas_of t)) }
{
    let n = t.count;
    t.sas[..n].iter().any(|s| is_over(*s, spi, tick))
}

// Whether table `t` breaks `wanted` at `tick`: the exchange wants it empty, not empty, or takes either.
fn breaks_wanted(wanted: Wanted, t: Table, tick: u32) -> bool
    ensures { result ≡ breaks_wanted wanted (empty_at limits tick t) }
{
    match wanted {
        Wanted::Empty => !t.is_empty(tick),
        Wanted::NotEmpty => t.is_empty(tick),
        Wanted::Any => false,
    }
}

// Whether number 2 applies where the member value keeps its list. `t` is its table, `x` the row of the frame's exchange, `spi` the header's
// two SPIs.
#[tactic(auto, unfolding(crate::specs::inner::Steps::barred))]
fn is_barred(t: Table, x: Exchange, spi: &[u8], tick: u32) -> bool
    requires { t.count ≤ limits.sas }
    ensures { result ≡ barred limits t x spi.now tick }
{
    let w = x.wanted;
    !x.admitted || breaks_wanted(w, t, tick) || x.compares_spis && !has_live_rekey(t, spi, tick)
}

// Whether number 2 applies, for `state` at `tick`, to a frame with exchange type `exchange` and the header's two SPIs `spi`. It always does
// if `state` breaks its list.
pub fn number_2(state: State, exchange: usize, spi: &[u8], tick: u32) -> bool
    ensures { result ≡ applies (number2 limits state tick exchange spi.now) }
{
    let t = state.table;
    let x = wire_frames::exchanges::exchange_of(exchange);
    !state.is_formed() || is_barred(t, x, spi, tick)
}
