// The facts of the payloads of a frame whose layout is whole, in one walk.
// Internal: crates of this repository alone call it.
#![tactic(auto)]

pub mod deletion;
pub mod kinds;

ghost use Rattle.std.specs.Prelude.{◌≡◌, Bool, true};
ghost use Rattle.wire_frames.specs.Frame.{frame};
ghost use Rattle.wire_readers.specs.inner.Values.{is_whole};
ghost use Rattle.check_payloads.specs.inner.Facts.{payload_facts_of, no_payloads, with_payload, CountsFit, CountsGrown};

use deletion::Deletes;
use ikev2_numbers::{DELETE, FIRST_PAYLOAD_AT, GSA, HEADER, KD, NO_PAYLOAD, PAYLOAD_HEADER};
use kinds::{first, is_known};
use wire_readers::payload::payload_parts;
use wire_readers::{Stretch, one_if};

// The facts of a frame's payloads.
#[derive(Clone, Copy)]
pub struct PayloadFacts {
    // the numbers of GSA, KD and D payloads
    pub gsas: usize,
    pub kds: usize,
    pub deletes: usize,
    // where the body of the first of each stands in the frame; an empty stretch if there is none.
    // Kept as a stretch and not as an `Option`: an empty one cuts a body with nothing in it, which is gone through like any other.
    pub gsa: Stretch,
    pub kd: Stretch,
    pub delete: Stretch,
    // some payload of an unknown type is critical
    pub critical: bool,
    // the facts of the D payloads
    pub deletion: Deletes,
}

// Answers the facts of no payload, with which the walk starts.
fn no_payloads() -> PayloadFacts
    ensures { result ≡ no_payloads }
{
    PayloadFacts {
        gsas: 0,
        kds: 0,
        deletes: 0,
        gsa: Stretch { start: 0, end: 0 },
        kd: Stretch { start: 0, end: 0 },
        delete: Stretch { start: 0, end: 0 },
        critical: false,
        deletion: Deletes {
            other: false,
            none: false,
            spis: 0,
        },
    }
}

// Adds a payload to the facts `b`: its type `kind`, its flag `critical`, the `place` of its body in the frame, and the body `o`.
fn with_payload(
    b: PayloadFacts,
    kind: usize,
    critical: bool,
    place: Stretch,
    o: &[u8],
) -> PayloadFacts
    requires { CountsFit kind o.now b }
    ensures { (result ≡ with_payload b kind critical place o.now) × CountsGrown b result }
{
    let g = b.gsa;
    let k = b.kd;
    let x = b.delete;
    let d = b.deletion;
    let gsa = first(kind == GSA, b.gsas, place, g);
    let kd = first(kind == KD, b.kds, place, k);
    let delete = first(kind == DELETE, b.deletes, place, x);
    let deletion = deletion::with_payload(d, kind, o);
    let known = is_known(kind);
    let gsas = b.gsas + one_if(kind == GSA);
    let kds = b.kds + one_if(kind == KD);
    let deletes = b.deletes + one_if(kind == DELETE);
    PayloadFacts {
        gsas,
        kds,
        deletes,
        gsa,
        kd,
        delete,
        critical: b.critical | (critical & !known),
        deletion,
    }
}

// Collects the facts of the payloads of frame `s`. Type 0 ends them.
pub fn payload_facts(s: &[u8]) -> PayloadFacts
    requires { (profile : Bool) × (is_whole (frame profile s.now) ≡ true) }
    ensures { result ≡ payload_facts_of s.now }
{
    let mut b = no_payloads();
    let mut kind = octets::wide(s[FIRST_PAYLOAD_AT]);
    let mut at = HEADER;
    // Kept as a `while`: where the next payload stands, and its type, are told by the one before it.
    while kind != NO_PAYLOAD {
        let p = payload_parts(kind, &s[at..]);
        let start = at + PAYLOAD_HEADER;
        let end = at + p.end;
        b = with_payload(b, kind, p.critical, Stretch { start, end }, &s[start..end]);
        kind = p.next;
        at = end;
    }
    b
}
