// Reads the payloads of a frame whose layout is whole.
ghost use Rattle.std.specs.Prelude.{◌≡◌, Bool, true};
ghost use Rattle.wire_readers.specs.inner.Values.{is_whole};
ghost use Rattle.wire_frames.specs.Frame.{payloads, nothing_left};
ghost use Rattle.wire_readers.specs.inner.Payloads.{PayloadIs};

use ikev2_numbers::{CRITICAL, STRUCTURE_LENGTH_AT};

// A payload: the type of the next one, its critical bit, where it ends. Its body starts behind its header.
#[derive(Clone, Copy)]
pub struct PayloadParts {
    pub next: usize,
    pub critical: bool,
    pub end: usize,
}

// Reads the first of the payloads `s`; its type is `kind`. Its answer is the same whether fresh keys are read or not.
pub fn payload_parts(kind: usize, s: &[u8]) -> PayloadParts
    requires { (kind ≡ 0 → ⊥) × ((fresh : Bool) × (is_whole (nothing_left (payloads fresh kind 0 s.now)) ≡ true)) }
    ensures { (fresh : Bool) → is_whole (nothing_left (payloads fresh kind 0 s.now)) ≡ true →
        PayloadIs fresh kind s.now result }
{
    PayloadParts {
        next: octets::wide(s[0]),
        critical: CRITICAL <= octets::wide(s[1]),
        end: octets::numbers::be16_at(s, STRUCTURE_LENGTH_AT),
    }
}
