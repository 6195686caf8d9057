// For tests: calls `receive`, `sweep`, `leave` and `sa` on member values that break the list of what a member is, and prints what they
// give. No line of input and no call of the library makes such a value. The first two values keep the list. Before these values the program
// prints what `==` of two members tells apart; after them it tries frames over the member's own channel.
#![tactic(auto)]

mod apart;
mod collections;
mod values;

use gikev2::Member;
use state_keys::limits::{HELD_KEYS, SAS};
use state_sa::entry::{ESP, REKEY};
use std::io;
use values::{
    esp, held_keys, held_of, key, lasting, member_of, rekey, retiring, sa_of, sas, table_of,
};

// A tick at which the retiring SA of the values is due.
const TICK: u32 = 1000;

// Prints `text` as it stands.
pub(crate) fn print(rt: &impl Print, text: &[u8]) -> io::Result<()> {
    rt.write_all(text)
}

// Answers a rekey over the Rekey SA a0, which deletes ESP SA 01010101.
fn frame() -> [u8; 40] {
    [
        160, 160, 160, 160, 160, 160, 160, 160, 160, 160, 160, 160, 160, 160, 160, 160, 42, 32, 41,
        32, 0, 0, 0, 5, 0, 0, 0, 40, 0, 0, 0, 12, 3, 4, 0, 1, 1, 1, 1, 1,
    ]
}

// Prints whether `m` and `next` are the same value.
pub(crate) fn compared(rt: &impl Print, m: Member, next: Member) -> io::Result<()> {
    if m == next {
        print(rt, b"same")
    } else {
        print(rt, b"another")
    }
}

// Prints the answer to the frame `f`, and whether the member stays the same.
fn received(rt: &impl Print, m: Member, f: &[u8]) -> io::Result<()> {
    let lent = [0u8; 16];
    let r = m.receive(f, &lent, TICK);
    let a = r.answer;
    let next = r.member;
    rt.print(a.number())?;
    print(rt, b" ")?;
    compared(rt, m, next)
}

// Prints whether leaving gives a new member.
fn left(rt: &impl Print, m: Member) -> io::Result<()> {
    let new = Member::new();
    let next = m.leave();
    if next == new {
        print(rt, b"new")
    } else {
        print(rt, b"another")
    }
}

// Prints whether `sa` finds ESP SA 01010101 or the Rekey SA a0.
fn asked(rt: &impl Print, m: Member) -> io::Result<()> {
    let one = [1u8; 4];
    let a0 = [160u8; 16];
    let e = m.sa(ESP, &one);
    let r = m.sa(REKEY, &a0);
    if e.is_none() && r.is_none() {
        print(rt, b"none")
    } else {
        print(rt, b"found")
    }
}

// Makes all four calls on `m`, and prints a line with what they give.
fn tried(rt: &impl Print, name: &[u8], m: Member) -> io::Result<()> {
    print(rt, name)?;
    print(rt, b": receive ")?;
    let f = frame();
    received(rt, m, &f)?;
    print(rt, b", sweep ")?;
    let swept = m.sweep(TICK);
    compared(rt, m, swept)?;
    print(rt, b", leave ")?;
    left(rt, m)?;
    print(rt, b", sa ")?;
    asked(rt, m)?;
    print(rt, b"\n")
}

// Tries two values that keep the list. Key IDs of the held list need not rise (document 02, T-04).
fn whole(rt: &impl Print) -> io::Result<()> {
    tried(rt, b"as it must be", member_of(sas(3), held_keys(2)))?;
    tried(
        rt,
        b"Key IDs that fall, as they may",
        member_of(sas(3), held_of(key(2, 16), key(1, 32), 2)),
    )
}

// Tries values that break the list by a count alone.
fn counts(rt: &impl Print) -> io::Result<()> {
    tried(
        rt,
        b"one SA over the limit",
        member_of(sas(SAS + 1), held_keys(2)),
    )?;
    tried(
        rt,
        b"2^64 - 1 SAs",
        member_of(sas(18446744073709551615), held_keys(2)),
    )?;
    tried(
        rt,
        b"a blank place among the SAs",
        member_of(sas(4), held_keys(2)),
    )?;
    tried(
        rt,
        b"one held key over the limit",
        member_of(sas(3), held_keys(HELD_KEYS + 1)),
    )?;
    tried(
        rt,
        b"a blank place among the held keys",
        member_of(sas(3), held_keys(3)),
    )
}

// Tries tables whose SAs do not rise, one with an SA of another protocol, and one with two live Rekey SAs.
fn orders(rt: &impl Print) -> io::Result<()> {
    tried(
        rt,
        b"a name twice",
        member_of(
            table_of(esp(1, 20), esp(1, 20), rekey(160, 36, 20, 16), 3),
            held_keys(2),
        ),
    )?;
    tried(
        rt,
        b"SPIs that fall",
        member_of(
            table_of(esp(2, 20), esp(1, 20), rekey(160, 36, 20, 16), 3),
            held_keys(2),
        ),
    )?;
    tried(
        rt,
        b"a Rekey SA before an ESP SA",
        member_of(
            table_of(esp(1, 20), rekey(160, 36, 20, 16), esp(2, 20), 3),
            held_keys(2),
        ),
    )?;
    tried(
        rt,
        b"protocol 2",
        member_of(
            table_of(sa_of(2, 1, 20, 0, 0), esp(1, 20), rekey(160, 36, 20, 16), 3),
            held_keys(2),
        ),
    )?;
    tried(
        rt,
        b"two live Rekey SAs",
        member_of(
            table_of(
                esp(1, 20),
                rekey(160, 36, 20, 16),
                rekey(161, 36, 20, 16),
                3,
            ),
            held_keys(2),
        ),
    )
}

// Tries SAs of sizes that they may not have.
fn sizes(rt: &impl Print) -> io::Result<()> {
    let r = rekey(160, 36, 20, 16);
    tried(
        rt,
        b"an ESP SA of 24 octets",
        member_of(
            table_of(esp(1, 24), retiring(esp(2, 20)), r, 3),
            held_keys(2),
        ),
    )?;
    tried(
        rt,
        b"an ESP SA of 69 octets",
        member_of(
            table_of(esp(1, 69), retiring(esp(2, 20)), r, 3),
            held_keys(2),
        ),
    )?;
    tried(
        rt,
        b"a Rekey SA of 44 octets in parts of 20 and 16",
        member_of(
            table_of(esp(1, 20), esp(2, 20), rekey(160, 44, 20, 16), 3),
            held_keys(2),
        ),
    )?;
    tried(
        rt,
        b"a Rekey SA in parts of 16 and 20",
        member_of(
            table_of(esp(1, 20), esp(2, 20), rekey(160, 36, 16, 20), 3),
            held_keys(2),
        ),
    )
}

// Tries SAs with lifetimes over the limit.
fn lifetimes(rt: &impl Print) -> io::Result<()> {
    let r = rekey(160, 36, 20, 16);
    tried(
        rt,
        b"an ESP SA with a lifetime of 2000001 seconds",
        member_of(
            table_of(lasting(esp(1, 20), 2000001), retiring(esp(2, 20)), r, 3),
            held_keys(2),
        ),
    )?;
    tried(
        rt,
        b"a Rekey SA with a lifetime of 4294967295 seconds",
        member_of(
            table_of(esp(1, 20), retiring(esp(2, 20)), lasting(r, 4294967295), 3),
            held_keys(2),
        ),
    )
}

// Tries held lists with Key IDs or sizes that they may not have.
fn held_lists(rt: &impl Print) -> io::Result<()> {
    tried(
        rt,
        b"Key ID 0",
        member_of(sas(3), held_of(key(0, 16), key(2, 32), 2)),
    )?;
    tried(
        rt,
        b"a Key ID twice",
        member_of(sas(3), held_of(key(2, 16), key(2, 32), 2)),
    )?;
    tried(
        rt,
        b"a held key of 20 octets",
        member_of(sas(3), held_of(key(1, 20), key(2, 32), 2)),
    )
}

// Tries the frame as a GSA_INBAND_REKEY (exchange type 42).
fn tried_in_band(rt: &impl Print, name: &[u8], m: Member) -> io::Result<()> {
    print(rt, name)?;
    print(rt, b": receive ")?;
    let mut f = frame();
    f[18] = 42;
    received(rt, m, &f)?;
    print(rt, b"\n")
}

// Tries frames over the member's own channel. D is refused there by number 4. A member whose SAs are all due is empty, and refuses by
// number 2.
fn in_band(rt: &impl Print) -> io::Result<()> {
    let r = rekey(160, 36, 20, 16);
    tried_in_band(
        rt,
        b"in-band, as it must be",
        member_of(sas(3), held_keys(2)),
    )?;
    tried_in_band(
        rt,
        b"in-band, every SA due",
        member_of(
            table_of(retiring(esp(1, 20)), retiring(esp(2, 20)), retiring(r), 3),
            held_keys(2),
        ),
    )?;
    tried_in_band(
        rt,
        b"in-band, one SA not due",
        member_of(
            table_of(retiring(esp(1, 20)), esp(2, 20), retiring(r), 3),
            held_keys(2),
        ),
    )?;
    tried_in_band(
        rt,
        b"in-band, a name twice",
        member_of(table_of(esp(1, 20), esp(1, 20), r, 3), held_keys(2)),
    )
}

fn main(rt: HostRuntime) -> io::Result<()> {
    apart::each(&rt)?;
    whole(&rt)?;
    counts(&rt)?;
    orders(&rt)?;
    sizes(&rt)?;
    lifetimes(&rt)?;
    held_lists(&rt)?;
    in_band(&rt)?;
    collections::try_collections(&rt)
}
