// The board's 32-bit millisecond counter.
ghost use Rattle.std.specs.Prelude.{◌≡◌};
ghost use Rattle.state_sa.specs.Clock.{elapsed_at_least};

// Whether `seconds` have passed from the tick `start` to the tick `now`, by their difference modulo 2^32.
pub fn elapsed_at_least(now: u32, start: u32, seconds: u32) -> bool
    ensures { result ≡ elapsed_at_least now start seconds }
{
    let elapsed = std::num::wrapping_sub_u32(now, start) as u64;
    let wait = (seconds as u64) * 1000;
    elapsed >= wait
}
