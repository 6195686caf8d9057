// The checks of RFC 5649, section 3, on unwrapped registers.
ghost use Rattle.std.specs.Prelude.{◌≡◌, suc, ◌≤◌, take};
ghost use Rattle.keywrap.specs.inner.Blank.{AnswersBlank};
ghost use Rattle.rfc5649.specs.inner.Unwrap.{Begins, all_zero, count_in};

use crate::Opened;
use crate::load::store;
use crate::sizes::{MOST_OCTETS, REGISTERS};

// Reads the octet count from `a`. Answers 0 where `a` is not the alternative initial value of a count that takes `n` blocks.
#[tactic(auto, unfolding(rfc5649::specs::inner::Unwrap::count_in))]
fn count_in(a: u64, n: usize) -> usize
    ensures { result ≡ count_in a n }
{
    let m = (a % 4294967296) as usize;
    if a / 4294967296 == 0xa65959a6 && (m + 7) / 8 == n {
        m
    } else {
        0
    }
}

// Whether every octet of `s` is 0.
fn is_zero(s: &[u8]) -> bool
    ensures { result ≡ all_zero s.now }
{
    s.iter().all(|x| *x == 0)
}

// Checks the unwrapped registers `s` of `n` blocks. Answers the octets that were wrapped, or `None` where a check fails.
pub(crate) fn check_registers(s: [u64; REGISTERS], n: usize) -> Option<Opened>
    requires { (1 ≤ n) × (n ≤ 32) }
    ensures { AnswersBlank (Begins n (take (suc n) s)) result }
{
    let m = count_in(s[0], n);
    if m == 0 {
        return None;
    }
    let end = n + 1;
    let mut octets = [0u8; MOST_OCTETS];
    store(&s[1..end], &mut octets);
    let full = 8 * n;
    let padded = &octets[..full];
    if is_zero(&padded[m..]) {
        return Some(Opened { octets, count: m });
    }
    None
}
