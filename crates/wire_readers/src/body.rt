// Reads what a Group SA policy holds after its SPI, where its layout is whole.
ghost use Rattle.std.specs.Prelude.{◌≡◌, List, ℕ, ◌≤◌, length, drop};
ghost use Rattle.wire_attributes.specs.declared.tables.Place.{Place};
ghost use Rattle.wire_policies.specs.Transform.{Transform};
ghost use Rattle.wire_policies.specs.Policy.{SaBody};
ghost use Rattle.wire_policies.specs.Grammar.{Transforms, IsSaBody};
ghost use Rattle.wire_readers.specs.inner.Bodies.{TransformIs, SaPartsAre};

use ikev2_numbers::{MORE_TRANSFORMS, STRUCTURE_LENGTH_AT, TRANSFORM_ID_AT, TRANSFORM_TYPE_AT};

// A transform: its type, its ID, whether another follows, where it ends. Its attributes start at its octet 8.
#[derive(Clone, Copy)]
pub struct TransformParts {
    pub kind: usize,
    pub id: usize,
    pub more: bool,
    pub end: usize,
}

// Where the destination selector, the transforms and the attributes start, counted from the source selector.
#[derive(Clone, Copy)]
pub struct SaParts {
    pub destination: usize,
    pub transforms: usize,
    pub attributes: usize,
}

// Reads the first of the transforms at the start of `s`.
pub fn transform_parts(s: &[u8]) -> TransformParts
    requires { (l : List Transform) × (tail : List ℕ) × Transforms s.now l tail }
    ensures { (l : List Transform) (tail : List ℕ) → Transforms s.now l tail → TransformIs s.now l tail result }
{
    TransformParts {
        kind: octets::wide(s[TRANSFORM_TYPE_AT]),
        id: octets::numbers::be16_at(s, TRANSFORM_ID_AT),
        more: octets::wide(s[0]) == MORE_TRANSFORMS,
        end: octets::numbers::be16_at(s, STRUCTURE_LENGTH_AT),
    }
}

// Answers where the last of the transforms at the start of `s` ends.
fn transforms_end(s: &[u8]) -> usize
    requires { (l : List Transform) × (tail : List ℕ) × Transforms s.now l tail }
    ensures { (result ≤ length s.now)
        × ((l : List Transform) (tail : List ℕ) → Transforms s.now l tail → tail ≡ drop result s.now) }
{
    let mut at = 0;
    loop {
        let t = transform_parts(&s[at..]);
        at += t.end;
        if !t.more {
            return at;
        }
    }
}

// Finds the parts of `s`, all that a Group SA policy holds after its SPI. The source selector comes first.
pub fn sa_parts(s: &[u8]) -> SaParts
    requires { (p : Place) × (x : SaBody) × IsSaBody p s.now x }
    ensures { (p : Place) (x : SaBody) → IsSaBody p s.now x → SaPartsAre p s.now x result }
{
    let d = wire_policies::selectors::selector_size(octets::wide(s[0]));
    let t = d + wire_policies::selectors::selector_size(octets::wide(s[d]));
    let e = transforms_end(&s[t..]);
    SaParts {
        destination: d,
        transforms: t,
        attributes: t + e,
    }
}
