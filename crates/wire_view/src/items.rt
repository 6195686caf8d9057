// A selector, a transform and an attribute as a view shows them.
ghost use Rattle.std.specs.Prelude.{◌≡◌, map, Bool, true, ◌+◌, ◌<◌, ◌^◌, length, get_or, Some};
ghost use Rattle.wire_attributes.specs.Attribute.{attribute_of, fits};
ghost use Rattle.wire_attributes.specs.Layout.{attributes};
ghost use Rattle.wire_attributes.specs.Tree.{number16};
ghost use Rattle.wire_attributes.specs.declared.tables.Meaning.TheVariants.{KeyLength};
ghost use Rattle.wire_policies.specs.Selector.{Selector};
ghost use Rattle.wire_policies.specs.Transform.{Transform};
ghost use Rattle.wire_policies.specs.Grammar.{IsSelector, IsTransform};
ghost use Rattle.wire_readers.specs.inner.Values.{is_whole, values_in};
ghost use Rattle.wire_view.specs.View.{shown_selector, shown_transform, shown_attribute};

use ikev2_numbers::{
    ADDRESSES_AT, END_PORT_AT, START_PORT_AT, TRANSFORM_HEAD, TRANSFORM_ID_AT, TRANSFORM_TYPE_AT,
};
use wire_attributes::tables::{Meaning, Place};

// A selector, a transform or an attribute of a policy. Offsets count from the policy's first octet.
#[derive(Clone, Copy)]
pub enum Item {
    // the type, the IP protocol and the ports; the starting and then the ending address stand from `start` to `end`
    Selector {
        kind: usize,
        protocol: usize,
        start_port: usize,
        end_port: usize,
        start: usize,
        end: usize,
    },
    // the type and the ID, how many Key Length attributes it has, and the first of them in bits, or 0
    Transform {
        kind: usize,
        id: usize,
        key_lengths: usize,
        key_length: usize,
    },
    // what it is in its place, whether it has the short format, its type; its value stands from `start` to `end`
    Attribute {
        meaning: Meaning,
        short: bool,
        kind: usize,
        start: usize,
        end: usize,
    },
}

// Shows the selector `s`, which starts at the offset `base` of the policy.
pub fn selector_item(s: &[u8], base: usize) -> Item
    requires { (base + length s.now < 2 ^ 64) × ((x : Selector) × IsSelector s.now x) }
    ensures { (x : Selector) → IsSelector s.now x → result ≡ shown_selector base x }
{
    Item::Selector {
        kind: octets::wide(s[0]),
        protocol: octets::wide(s[1]),
        start_port: octets::numbers::be16_at(s, START_PORT_AT),
        end_port: octets::numbers::be16_at(s, END_PORT_AT),
        start: base + ADDRESSES_AT,
        end: base + s.len(),
    }
}

// Answers the first Key Length, in bits, of a transform's attributes `s`, which stand in `place`; 0 if there is none.
fn key_length(place: Place, s: &[u8]) -> usize
    requires { is_whole (attributes place 0 s.now) ≡ true }
    ensures { result ≡ get_or (map number16 (values_in KeyLength place s.now)) 0 0 }
{
    let v = wire_readers::values::value_of(Meaning::KeyLength, place, s, 0);
    if v.len() == 0 {
        return 0;
    }
    octets::numbers::be16_at(v, 0)
}

// Shows the transform `s`.
pub fn transform_item(s: &[u8]) -> Item
    requires { (t : Transform) × (more : Bool) × IsTransform true s.now t more }
    ensures { (t : Transform) (more : Bool) → IsTransform true s.now t more → result ≡ shown_transform t }
{
    let kind = octets::wide(s[TRANSFORM_TYPE_AT]);
    let place = wire_attributes::tables::in_transform(kind);
    let held = &s[TRANSFORM_HEAD..];
    Item::Transform {
        kind,
        id: octets::numbers::be16_at(s, TRANSFORM_ID_AT),
        key_lengths: wire_readers::values::count_of(Meaning::KeyLength, place, held),
        key_length: key_length(place, held),
    }
}

// Shows the attribute at the start of `s`, which stands in `place` and at the offset `base` of the policy; nothing if it is cut short.
pub fn attribute_item(place: Place, s: &[u8], base: usize) -> Option<Item>
    requires { base + length s.now < 2 ^ 64 }
    ensures { fits s.now ≡ true → result ≡ Some (shown_attribute place base (attribute_of s.now)) }
{
    let a = wire_attributes::read_attribute(s)?;
    Some(Item::Attribute {
        meaning: wire_attributes::tables::meaning_in(place, a.kind),
        short: a.short,
        kind: a.kind,
        start: base + a.start,
        end: base + a.end,
    })
}
