// The numbers in the attributes of a policy (GSA_INITIAL_MESSAGE_ID, GSA_KEY_LIFETIME or the deactivation delay), in one walk.
ghost use Rattle.std.specs.Prelude.{◌≡◌, true, ◌<◌, ◌≤◌, length};
ghost use Rattle.wire_attributes.specs.Layout.{attributes};
ghost use Rattle.wire_readers.specs.inner.Values.{is_whole, values_in, value_size};
ghost use Rattle.check_composition.specs.inner.Numbers.{is_number, number_by, most, numbers_by, with_number};

use octets::numbers::{be16_at, be32_at};
use wire_attributes::attribute_value;
use wire_attributes::tables::{Meaning, Place};
use wire_readers::values::next_attribute;

// How many numbers the attributes of one meaning give, and the greatest of them, or 0 if there is none.
#[derive(Clone, Copy, Default)]
pub struct Numbers {
    pub count: usize,
    pub greatest: u32,
}

// Reads the number in `v`, the value of an attribute with meaning `m`.
fn number_of(m: Meaning, v: &[u8]) -> u32
    requires { (is_number m ≡ true) × (value_size m (length v.now) ≡ true) }
    ensures { (result ≡ number_by m v.now) × (result ≤ most m) }
{
    match m {
        Meaning::InitialMessageId => be32_at(v, 0),
        Meaning::DeactivationDelay => be16_at(v, 0) as u32,
        Meaning::KeyLifetime => be32_at(v, 0),
        _ => 0,
    }
}

// Adds to `n` the number in `v`, the value of an attribute with meaning `m`.
fn with_number(m: Meaning, n: Numbers, v: &[u8]) -> Numbers
    requires { (is_number m ≡ true) × (value_size m (length v.now) ≡ true) × (n.count < 18446744073709551615)
        × (n.greatest ≤ most m) }
    ensures { (result ≡ with_number m n v.now) × (result.greatest ≤ most m) }
{
    let x = number_of(m, v);
    let greatest = n.greatest.max(x);
    let count = n.count + 1;
    Numbers { count, greatest }
}

// Collects the numbers of all attributes with meaning `m` among the attributes `a` in `place`.
pub fn numbers_of(m: Meaning, place: Place, a: &[u8]) -> Numbers
    requires { (is_number m ≡ true) × (is_whole (attributes place 0 a.now) ≡ true) }
    ensures { (result ≡ numbers_by m (values_in m place a.now)) × (result.greatest ≤ most m) }
{
    let mut n = Numbers::default();
    let mut at = 0;
    while let Some(x) = next_attribute(m, place, a, at) {
        n = with_number(m, n, attribute_value(a, x.start));
        at = x.end;
    }
    n
}
