// Payloads by their type. The header names the type of the first payload, each payload that of the next.
ghost use Rattle.std.specs.Prelude.{◌≡◌};
ghost use Rattle.wire_frames.specs.Frame.{is_known};
ghost use Rattle.check_payloads.specs.inner.Facts.{first_with};

use ikev2_numbers::{AUTH, CERT, DELETE, GSA, IDR, KD, NOTIFY};
use wire_readers::Stretch;

// Whether payload type `kind` is known: IDr, CERT, AUTH, N, D, GSA or KD.
pub fn is_known(kind: usize) -> bool
    ensures { result ≡ is_known kind }
{
    matches!(kind, IDR | CERT | AUTH | NOTIFY | DELETE | GSA | KD)
}

// Answers where the first payload of a type stands, once the payload at `this` is read: at `this` if it has the type (`hit`) and none
// `before` it had, else at `known`.
pub fn first(hit: bool, before: usize, this: Stretch, known: Stretch) -> Stretch
    ensures { result ≡ first_with hit before this known }
{
    if hit && before == 0 { this } else { known }
}
