// The transforms of the Group SA policies: whether they are those that document 01 asks for, and the keying octets that they need.
// Internal: crates of this repository alone call it.
#![tactic(auto)]

pub mod counts;
pub mod rows;

ghost use Rattle.std.specs.Prelude.{◌≡◌, List, ℕ, ◌<◌, length};
ghost use Rattle.wire_attributes.specs.declared.tables.Place.{Place};
ghost use Rattle.wire_policies.specs.Transform.{Transform};
ghost use Rattle.wire_policies.specs.Policy.{SaBody};
ghost use Rattle.wire_policies.specs.Grammar.{Transforms, IsSaBody};
ghost use Rattle.check_suites.specs.inner.Suites.{suite_of, needs_of};

use counts::{Needs, SuiteCounts};
use ikev2_numbers::TRANSFORM_HEAD;

// Counts the transforms at the start of `t`.
pub fn suite(t: &[u8]) -> SuiteCounts
    requires { (l : List Transform) × (tail : List ℕ) × Transforms t.now l tail }
    ensures { (l : List Transform) (tail : List ℕ) → Transforms t.now l tail → result ≡ suite_of l }
{
    let mut s = SuiteCounts::none();
    let mut at = 0;
    // Kept as a loop, here and below: each transform says where it ends and whether one follows.
    loop {
        let p = wire_readers::body::transform_parts(&t[at..]);
        let a = at + TRANSFORM_HEAD;
        let e = at + p.end;
        s = s.plus(counts::one_transform(p.kind, p.id, &t[a..e]));
        if !p.more {
            return s;
        }
        at = e;
    }
}

// Sums the keying octets that the transforms at the start of `t` need.
fn transforms_need(t: &[u8]) -> Needs
    requires { (length t.now < 4294967296) × ((l : List Transform) × (tail : List ℕ) × Transforms t.now l tail) }
    ensures { (l : List Transform) (tail : List ℕ) → Transforms t.now l tail → result ≡ needs_of l }
{
    let mut encryption = 0;
    let mut wrapping = 0;
    let mut at = 0;
    loop {
        let p = wire_readers::body::transform_parts(&t[at..]);
        let a = at + TRANSFORM_HEAD;
        let e = at + p.end;
        encryption += rows::encryption_octets(p.kind, p.id, &t[a..e]);
        wrapping += rows::wrapping_octets(p.kind, p.id);
        if !p.more {
            return Needs {
                encryption,
                wrapping,
            };
        }
        at = e;
    }
}

// Sums the keying octets that an SA needs. `x` are the octets after the SPI in its policy.
pub fn needs(x: &[u8]) -> Needs
    requires { (length x.now < 4294967296) × ((p : Place) × (b : SaBody) × IsSaBody p x.now b) }
    ensures { (p : Place) (b : SaBody) → IsSaBody p x.now b → result ≡ needs_of b.suite.transforms }
{
    let t = wire_readers::body::sa_parts(x).transforms;
    transforms_need(&x[t..])
}
