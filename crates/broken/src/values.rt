// Makes members from parts. Unused places hold octets too: a call that leaves a value as it is leaves these.
use gikev2::Member;
use state::State;
use state::held::{Held, HeldKey};
use state::least::Least;
use state_keys::kinds::WrappingKey;
use state_keys::limits::{HELD_KEYS, SAS};
use state_sa::entry::{Condition, ESP, Lifetime, REKEY, Sa};
use state_table::Table;

// Answers a live SA whose SPI and keying octets are `octet`, over and over.
pub(crate) fn sa_of(
    protocol: u8,
    octet: u8,
    count: usize,
    encryption: usize,
    wrapping: usize,
) -> Sa {
    Sa {
        protocol,
        spi: [octet; 16],
        octets: [octet; 68],
        count,
        encryption,
        wrapping,
        condition: Condition::Live,
        lifetime: Lifetime::Unlimited,
    }
}

// Answers a live ESP SA with `count` keying octets.
pub(crate) fn esp(octet: u8, count: usize) -> Sa {
    sa_of(ESP, octet, count, 0, 0)
}

// Answers a live Rekey SA with `count` keying octets, in parts of `encryption` and `wrapping` octets.
pub(crate) fn rekey(octet: u8, count: usize, encryption: usize, wrapping: usize) -> Sa {
    sa_of(REKEY, octet, count, encryption, wrapping)
}

// Answers `s`, retiring from tick 0 on without delay: it is due at every tick.
pub(crate) fn retiring(s: Sa) -> Sa {
    let condition = Condition::Retiring { start: 0, delay: 0 };
    Sa { condition, ..s }
}

// Answers `s` with a lifetime of `seconds` from tick 0 on.
pub(crate) fn lasting(s: Sa, seconds: u32) -> Sa {
    let lifetime = Lifetime::Limited { start: 0, seconds };
    Sa { lifetime, ..s }
}

// Answers `s` with another last octet in the place for SPIs, which an ESP SPI does not use.
pub(crate) fn changed_spi(mut s: Sa) -> Sa {
    s.spi[15] = 0;
    s
}

// Answers `s` with another last octet in the place for keying octets.
pub(crate) fn changed_octet(mut s: Sa) -> Sa {
    s.octets[67] = 0;
    s
}

// Answers a table that starts with three SAs and has the count `count`.
pub(crate) fn table_of(first: Sa, second: Sa, third: Sa, count: usize) -> Table {
    let unused = sa_of(0, 255, 0, 0, 0);
    let mut sas = [unused; SAS];
    sas[0] = first;
    sas[1] = second;
    sas[2] = third;
    Table { sas, count }
}

// Answers a table of three SAs that it may hold, one of them due, with the count `count`.
pub(crate) fn sas(count: usize) -> Table {
    table_of(
        esp(1, 20),
        retiring(esp(2, 28)),
        rekey(160, 36, 20, 16),
        count,
    )
}

// Answers `t` with another SA in the last place.
pub(crate) fn changed_place(mut t: Table) -> Table {
    let s = esp(1, 20);
    t.sas[SAS - 1] = s;
    t
}

// Answers a held key with `count` octets.
pub(crate) fn key(id: u32, count: usize) -> HeldKey {
    let key = WrappingKey {
        octets: [7; 32],
        count,
    };
    HeldKey { id, key }
}

// Answers `k` with another last octet in the place for a key.
pub(crate) fn changed_key(mut k: HeldKey) -> HeldKey {
    k.key.octets[31] = 0;
    k
}

// Answers a held list that starts with two keys and has the count `count`.
pub(crate) fn held_of(first: HeldKey, second: HeldKey, count: usize) -> Held {
    let unused = key(0, 0);
    let mut keys = [unused; HELD_KEYS];
    keys[0] = first;
    keys[1] = second;
    Held { keys, count }
}

// Answers a held list of two keys that it may hold, with the count `count`.
pub(crate) fn held_keys(count: usize) -> Held {
    held_of(key(1, 16), key(2, 32), count)
}

// Answers `h` with another key in the last place.
pub(crate) fn key_at_the_end(mut h: Held) -> Held {
    let k = key(9, 16);
    h.keys[HELD_KEYS - 1] = k;
    h
}

// Answers a member of `table` and `held`, with the least Message ID 5.
pub(crate) fn member_of(table: Table, held: Held) -> Member {
    let state = State {
        table,
        held,
        least: Least::Id(5),
        profile: false,
    };
    Member { state }
}

// Answers `m`, for which no Message ID is acceptable any more.
pub(crate) fn without_id(m: Member) -> Member {
    let least = Least::NoneAnyMore;
    let state = State { least, ..m.state };
    Member { state }
}
