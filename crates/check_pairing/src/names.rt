// The names (protocol and SPI) of the policies of a GSA body or of the key bags of a KD body, read from their heads alone.
ghost use Rattle.std.specs.Prelude.{◌≡◌, List, length};
ghost use Rattle.lists.specs.Lists.{any, count};
ghost use Rattle.check_pairing.specs.inner.Names.{Name, Names, name_of, is_named, is_unpaired};

use ikev2_numbers::{NO_PROTOCOL, POLICY_HEAD};

// Whether a policy or key bag with first octet `first` and SPI `x` has the name `protocol` and `spi`. A group-wide policy or a Member Key
// Bag (`first` is 0) has no name.
pub fn is_named(protocol: usize, spi: &[u8], first: usize, x: &[u8]) -> bool
    ensures { result ≡ any (is_named protocol spi.now) (name_of first x.now) }
{
    if first == NO_PROTOCOL {
        return false;
    }
    first == protocol && octets::compare::same(x, spi)
}

// Counts the policies or key bags of body `s` with the name `protocol` and `spi`.
pub fn count_names(protocol: usize, spi: &[u8], s: &[u8]) -> usize
    requires { (l : List Name) × Names s.now l }
    ensures { (l : List Name) → Names s.now l → result ≡ count (is_named protocol spi.now) l }
{
    let mut n = 0;
    let mut at = 0;
    // Kept as a `while`, here and below: the place moves by what each head says, and there is no index to count.
    while at < s.len() {
        let p = wire_readers::policy::head_parts(&s[at..]);
        let start = at + POLICY_HEAD;
        let end = at + p.body;
        let next = at + p.end;
        if is_named(protocol, spi, p.first, &s[start..end]) {
            n += 1;
        }
        at = next;
    }
    n
}

// Whether the name of a policy or key bag, first octet `first` and SPI `x`, stands in the other body `t` never or more than once. A policy
// or bag without a name is not unpaired.
fn is_unpaired(first: usize, x: &[u8], t: &[u8]) -> bool
    requires { (m : List Name) × Names t.now m }
    ensures { (m : List Name) → Names t.now m → result ≡ any (is_unpaired m) (name_of first x.now) }
{
    first != NO_PROTOCOL && count_names(first, x, t) != 1
}

// Whether some name of body `s` stands in body `t` never or more than once.
pub fn any_unpaired(s: &[u8], t: &[u8]) -> bool
    requires { ((l : List Name) × Names s.now l) × ((m : List Name) × Names t.now m) }
    ensures { (l m : List Name) → Names s.now l → Names t.now m → result ≡ any (is_unpaired m) l }
{
    let mut at = 0;
    while at < s.len() {
        let p = wire_readers::policy::head_parts(&s[at..]);
        let start = at + POLICY_HEAD;
        let end = at + p.body;
        if is_unpaired(p.first, &s[start..end], t) {
            return true;
        }
        at += p.end;
    }
    false
}
