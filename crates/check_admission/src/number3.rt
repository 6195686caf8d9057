// Number 3: a Message ID that is not acceptable any more.
ghost use Rattle.std.specs.Prelude.{◌≡◌};
ghost use Rattle.rules_refusals.specs.Refusals.{number3, applies};

use state::State;

// Whether number 3 applies, for `state`, to a frame with exchange type `exchange` and Message ID `id`.
pub fn number_3(state: State, exchange: usize, id: u32) -> bool
    ensures { result ≡ applies (number3 state exchange id) }
{
    let x = wire_frames::exchanges::exchange_of(exchange);
    let least = state.least;
    x.compares_message_id && !least.accepts(id)
}
