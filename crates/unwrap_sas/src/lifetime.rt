// Reads the lifetime of an SA from its policy.
ghost use Rattle.std.specs.Prelude.{◌≡◌, false};
ghost use Rattle.wire_attributes.specs.Place.{in_policy};
ghost use Rattle.wire_policies.specs.Policy.{SaBody};
ghost use Rattle.wire_policies.specs.Grammar.{IsSaBody};
ghost use Rattle.rules_refusals.specs.Contents.{several};
ghost use Rattle.rules_outcome.specs.After.{lifetime_from};
ghost use Rattle.unwrap_sas.specs.inner.Policies.{lifetimes_of};

use check_composition::numbers::numbers_of;
use state_sa::entry::Lifetime;
use wire_attributes::tables::Meaning;

// Reads the lifetime, from `tick` on, of the SA of a Group SA policy of `protocol`. `x` is what the policy holds after its SPI. Without a
// GSA_KEY_LIFETIME the lifetime is unlimited.
pub fn of_policy(protocol: usize, x: &[u8], tick: u32) -> Lifetime
    requires { (b : SaBody) × IsSaBody (in_policy protocol) x.now b × (several (lifetimes_of protocol b) ≡ false) }
    ensures { (b : SaBody) → IsSaBody (in_policy protocol) x.now b → result ≡ lifetime_from tick (lifetimes_of protocol b) }
{
    let p = wire_readers::body::sa_parts(x);
    let a = p.attributes;
    let place = wire_attributes::tables::in_policy(protocol);
    let n = numbers_of(Meaning::KeyLifetime, place, &x[a..]);
    if n.count == 0 {
        return Lifetime::Unlimited;
    }
    Lifetime::Limited {
        start: tick,
        seconds: n.greatest,
    }
}
