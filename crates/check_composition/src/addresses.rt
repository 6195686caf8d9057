// The address of a Rekey SA: "one address (start equals end) in 224.0.0.0/4 or ff00::/8 and one port".
ghost use Rattle.std.specs.Prelude.{◌≡◌, [], ◌∷◌, ◌<◌};
ghost use Rattle.wire_policies.specs.Selector.{Selector, address_size};
ghost use Rattle.wire_policies.specs.Grammar.{IsSelector};
ghost use Rattle.rules_refusals.specs.Fitness.{multicast, one_group_address};

use ikev2_numbers::{
    ADDRESSES_AT, END_PORT_AT, IPV4_ADDRESS, IPV4_GROUP_FIRST, IPV4_GROUP_LAST, IPV6_ADDRESS,
    IPV6_GROUP, START_PORT_AT, TS_IPV4_ADDR_RANGE, TS_IPV6_ADDR_RANGE,
};

// Answers how many octets an address has in a traffic selector of type `kind`; 0 for a type other than the two.
fn address_size(kind: usize) -> usize
    ensures { (result ≡ address_size kind) × (result < 17) }
{
    match kind {
        TS_IPV4_ADDR_RANGE => IPV4_ADDRESS,
        TS_IPV6_ADDR_RANGE => IPV6_ADDRESS,
        _ => 0,
    }
}

// Whether an address with first octet `first` is a multicast address: of IPv4 or IPv6, by the selector's type `kind`.
fn is_multicast(kind: usize, first: usize) -> bool
    ensures { result ≡ multicast kind (first ∷ []) }
{
    if kind == TS_IPV4_ADDR_RANGE {
        IPV4_GROUP_FIRST <= first && first <= IPV4_GROUP_LAST
    } else {
        first == IPV6_GROUP
    }
}

// Whether selector `o` is one multicast address and one port: its starts equal its ends.
pub fn is_group_address(o: &[u8]) -> bool
    requires { (x : Selector) × IsSelector o.now x }
    ensures { (x : Selector) → IsSelector o.now x → result ≡ one_group_address x }
{
    let kind = octets::wide(o[0]);
    let e = ADDRESSES_AT + address_size(kind);
    octets::compare::same(&o[ADDRESSES_AT..e], &o[e..])
        && is_multicast(kind, octets::wide(o[ADDRESSES_AT]))
        && octets::numbers::be16_at(o, START_PORT_AT) == octets::numbers::be16_at(o, END_PORT_AT)
}
