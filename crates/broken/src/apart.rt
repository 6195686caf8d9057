// Shows that the comparison looks at every field: compares a member with others that differ from it in one place.
use crate::values::{
    changed_key, changed_octet, changed_place, changed_spi, esp, held_keys, held_of, key,
    key_at_the_end, lasting, member_of, rekey, retiring, sa_of, sas, table_of, without_id,
};
use gikev2::Member;
use state::held::HeldKey;
use state_sa::entry::{ESP, Sa};
use std::io;

// Compares the member with `other`, and prints the result behind `name`.
fn beside(rt: &impl Print, name: &[u8], other: Member) -> io::Result<()> {
    let m = member_of(sas(3), held_keys(2));
    crate::print(rt, name)?;
    crate::print(rt, b": ")?;
    crate::compared(rt, m, other)?;
    crate::print(rt, b"\n")
}

// Answers the member with `s` as its first SA.
fn first(s: Sa) -> Member {
    let t = table_of(s, retiring(esp(2, 28)), rekey(160, 36, 20, 16), 3);
    member_of(t, held_keys(2))
}

// Answers the member with `k` as its first held key.
fn first_key(k: HeldKey) -> Member {
    member_of(sas(3), held_of(k, key(2, 32), 2))
}

fn sa_fields(rt: &impl Print) -> io::Result<()> {
    let s = esp(1, 20);
    beside(rt, b"itself", first(s))?;
    beside(rt, b"another protocol", first(sa_of(4, 1, 20, 0, 0)))?;
    beside(rt, b"another octet behind an SPI", first(changed_spi(s)))?;
    beside(rt, b"another octet behind a key", first(changed_octet(s)))?;
    beside(rt, b"another octet count", first(esp(1, 28)))?;
    beside(rt, b"another first part", first(sa_of(ESP, 1, 20, 1, 0)))?;
    beside(rt, b"another second part", first(sa_of(ESP, 1, 20, 0, 1)))?;
    beside(rt, b"another condition", first(retiring(s)))?;
    beside(rt, b"a lifetime", first(lasting(s, 0)))
}

fn other_fields(rt: &impl Print) -> io::Result<()> {
    beside(
        rt,
        b"another last place of the table",
        member_of(changed_place(sas(3)), held_keys(2)),
    )?;
    beside(rt, b"another SA count", member_of(sas(4), held_keys(2)))?;
    beside(rt, b"another Key ID", first_key(key(3, 16)))?;
    beside(
        rt,
        b"another octet behind a held key",
        first_key(changed_key(key(1, 16))),
    )?;
    beside(
        rt,
        b"another octet count of a held key",
        first_key(key(1, 24)),
    )?;
    beside(
        rt,
        b"another last place of the held list",
        member_of(sas(3), key_at_the_end(held_keys(2))),
    )?;
    beside(rt, b"another held count", member_of(sas(3), held_keys(3)))?;
    beside(
        rt,
        b"another least Message ID",
        without_id(member_of(sas(3), held_keys(2))),
    )
}

// Compares the member with itself and with each of the others.
pub(crate) fn each(rt: &impl Print) -> io::Result<()> {
    sa_fields(rt)?;
    other_fields(rt)
}
