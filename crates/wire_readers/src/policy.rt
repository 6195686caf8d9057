// Reads the policies of a GSA body whose layout is whole.
ghost use Rattle.std.specs.Prelude.{◌≡◌, true, ◌<◌, length};
ghost use Rattle.wire_readers.specs.inner.Values.{is_whole};
ghost use Rattle.wire_policies.specs.Policy.{head_fits, policies};
ghost use Rattle.wire_readers.specs.inner.Policies.{Heads, PolicyIs};

use ikev2_numbers::{POLICY_HEAD, STRUCTURE_LENGTH_AT};

// A policy or a key bag: its first octet, where its body starts (behind head and SPI), where it ends.
#[derive(Clone, Copy)]
pub struct Parts {
    pub first: usize,
    pub body: usize,
    pub end: usize,
}

// Reads the head of the policy or key bag at the start of `s`. The head must fit (`wire_policies::head_fits`).
pub fn head_parts(s: &[u8]) -> Parts
    requires { head_fits s.now ≡ true }
    ensures { Heads s.now result }
{
    let p = octets::wide(s[0]);
    let n = octets::numbers::be16_at(s, STRUCTURE_LENGTH_AT);
    let z = POLICY_HEAD + wire_policies::spi_size(p);
    Parts {
        first: p,
        body: z,
        end: n,
    }
}

// Reads the first policy of `s`, a GSA body or the rest of one.
pub fn policy_parts(s: &[u8]) -> Parts
    requires { (0 < length s.now) × (is_whole (policies 0 s.now) ≡ true) }
    ensures { PolicyIs s.now result }
{
    head_parts(s)
}
