// Writes standard output, and keeps how many octets it was handed so far and whether a write failed. Both are private to this file, and
// `hand_over` alone changes them: a promise that asks for a higher count asks for that call.
ghost use Rattle.std.specs.Prelude.{◌≡◌, ◌≤◌, length, take};
ghost use Rattle.member.specs.inner.Handing.{nothing_handed, HandedOver};

use std::io::{Stdout, Write};

// How many octets were handed to the output, modulo 2^64, and whether a write of them failed.
#[derive(Clone, Copy)]
pub struct Handed {
    count: usize,
    failed: bool,
}

// Answers the count before the first write.
pub(crate) fn nothing() -> Handed
    ensures { result ≡ nothing_handed }
{
    Handed {
        count: 0,
        failed: false,
    }
}

// Hands the first `at` octets of `out` to the write, and counts them. Hands nothing over after a write that failed: later answers would
// stand in the place of the lost ones.
pub(crate) fn hand_over(mut output: Stdout, handed: Handed, out: &[u8], at: usize) -> Handed
    requires { at ≤ length out.now }
    ensures { HandedOver handed (take at out.now) result }
{
    if handed.failed {
        return handed;
    }
    let written = output.write_all(&out[..at]).is_ok();
    let count = handed.count.wrapping_add(at);
    Handed {
        count,
        failed: !written,
    }
}

// Whether a write failed.
pub(crate) fn failed(handed: Handed) -> bool
    ensures { result ≡ handed.failed }
{
    handed.failed
}
