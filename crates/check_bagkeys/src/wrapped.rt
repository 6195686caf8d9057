// The facts of the wrapped keys of one bag, SA_KEYs or WRAP_KEYs, in one walk.
ghost use Rattle.std.specs.Prelude.{◌≡◌, true, ◌<◌, ◌≤◌, length};
ghost use Rattle.wire_attributes.specs.Layout.{attributes};
ghost use Rattle.wire_readers.specs.inner.Values.{is_whole, values_in};
ghost use Rattle.check_bagkeys.specs.inner.Facts.{carries_key, with_key, key_facts_of};

use ikev2_numbers::KWK_ID_AT;
use wire_attributes::attribute_value;
use wire_attributes::tables::{Meaning, Place};
use wire_readers::values::next_attribute;

// The facts of the wrapped keys of one bag: how many there are; some key has a Key ID (`named`), has none (`unnamed`), has a KWK ID, where
// an ID of 0 counts as none; the two IDs of some key are equal, be they 0 or not (`itself`).
#[derive(Clone, Copy, Default)]
pub struct KeyFacts {
    pub keys: usize,
    pub named: bool,
    pub unnamed: bool,
    pub with_kwk_id: bool,
    pub itself: bool,
}

// Adds to `f` the key in `v`, the value of an attribute.
fn with_key(f: KeyFacts, v: &[u8]) -> KeyFacts
    requires { (8 ≤ length v.now) × (f.keys < 18446744073709551615) }
    ensures { result ≡ with_key f v.now }
{
    let id = octets::numbers::be32_at(v, 0);
    let kwk = octets::numbers::be32_at(v, KWK_ID_AT);
    KeyFacts {
        keys: f.keys + 1,
        named: f.named | (id != 0),
        unnamed: f.unnamed | (id == 0),
        with_kwk_id: f.with_kwk_id | (kwk != 0),
        itself: f.itself | (id == kwk),
    }
}

// Collects the facts of the keys with meaning `m` (SA_KEY or WRAP_KEY) among the attributes `a` of a bag in `place`.
pub fn keys_of(m: Meaning, place: Place, a: &[u8]) -> KeyFacts
    requires { (carries_key m ≡ true) × (is_whole (attributes place 0 a.now) ≡ true) }
    ensures { (result ≡ key_facts_of (values_in m place a.now)) × (result.keys ≤ length a.now) }
{
    let mut f = KeyFacts::default();
    let mut at = 0;
    while let Some(x) = next_attribute(m, place, a, at) {
        f = with_key(f, attribute_value(a, x.start));
        at = x.end;
    }
    f
}
