// Hands fragment 2 of 2 to a member with collections that break each rule of what a collection is, one at a time, and prints the answer and
// how many pieces wait. A collection that keeps the rules makes the fragment complete, passed over or too long; any other counts as empty,
// so the fragment waits alone. No call of the library makes such a collection.
use crate::print;
use crate::values::sa_of;
use fragments::{Collection, Piece};
use gikev2::Member;
use gikev2::fragment::FragmentAnswer;
use state::State;
use state::held::Held;
use state::least::Least;
use state_sa::entry::REKEY;
use state_table::Table;
use std::io;

// The two SPIs of the Rekey SA, and fragment 2 of 2 of a rekey over it with Message ID 7: the last seven octets of one Delete payload.
const SPIS: [u8; 16] = [
    160, 161, 162, 163, 164, 165, 166, 167, 168, 169, 170, 171, 172, 173, 174, 175,
];

const FRAGMENT: [u8; 68] = [
    160, 161, 162, 163, 164, 165, 166, 167, 168, 169, 170, 171, 172, 173, 174, 175, 53, 32, 41, 0,
    0, 0, 0, 7, 0, 0, 0, 68, 0, 0, 0, 40, 0, 2, 0, 2, 0, 0, 0, 0, 0, 0, 0, 2, 124, 53, 193, 85,
    225, 222, 75, 208, 188, 39, 233, 33, 53, 51, 72, 164, 11, 20, 241, 255, 37, 87, 125, 123,
];

// The keying octets of that Rekey SA: the encryption part is 00 to 13.
const KEYING: [u8; 68] = [
    0, 1, 2, 3, 4, 5, 6, 7, 8, 9, 10, 11, 12, 13, 14, 15, 16, 17, 18, 19, 0, 0, 0, 0, 0, 0, 0, 0,
    0, 0, 0, 0, 0, 0, 0, 0, 0, 0, 0, 0, 0, 0, 0, 0, 0, 0, 0, 0, 0, 0, 0, 0, 0, 0, 0, 0, 0, 0, 0, 0,
    0, 0, 0, 0, 0, 0, 0, 0,
];

// Answers a member with that Rekey SA alone.
fn member() -> Member {
    let mut sa = sa_of(REKEY, 0, 36, 20, 16);
    sa.spi = SPIS;
    sa.octets = KEYING;
    let new = Table::new();
    let mut sas = new.sas;
    sas[0] = sa;
    let table = Table { sas, count: 1 };
    let held = Held::new();
    let state = State {
        table,
        held,
        least: Least::Id(0),
        profile: false,
    };
    Member { state }
}

// Answers a collection of that rekey with this total and count, two pieces, and the version octet of fragment 1.
fn collection(total: usize, count: usize, first: Piece, second: Piece, version: u8) -> Collection {
    let mut c = Collection::new();
    c.spis = SPIS;
    c.id = 7;
    c.total = total;
    c.count = count;
    c.pieces[0] = first;
    c.pieces[1] = second;
    c.version = version;
    c.next = 42;
    c.octets[3] = 12;
    c.octets[4] = 3;
    c
}

// Answers a piece.
fn piece(number: usize, size: usize) -> Piece {
    Piece { number, size }
}

// Prints the answer.
fn print_answer(rt: &impl Print, a: FragmentAnswer) -> io::Result<()> {
    match a {
        FragmentAnswer::Refused(x) => {
            print(rt, b": refused ")?;
            rt.print(x.number())
        }
        FragmentAnswer::PassedOver => print(rt, b": passed over"),
        FragmentAnswer::Waiting => print(rt, b": waiting"),
        FragmentAnswer::Complete(x) => {
            print(rt, b": complete ")?;
            rt.print(x.number())
        }
    }
}

// Hands the fragment in with `c`, and prints `name`, the answer and the count of pieces afterwards.
fn try_with(rt: &impl Print, name: &[u8], c: Collection) -> io::Result<()> {
    let mut room = [0u8; 16384];
    let m = member();
    let g = m.receive_fragment(c, &FRAGMENT, &mut room, 0);
    let a = g.answer;
    let next = g.collection;
    print(rt, name)?;
    print_answer(rt, a)?;
    print(rt, b", ")?;
    rt.print(next.count)?;
    print(rt, b" kept\n")
}

// Tries collections whose total or count breaks a rule, beside some that keep it.
fn try_counts(rt: &impl Print) -> io::Result<()> {
    let one = piece(1, 5);
    let two = piece(2, 7);
    let none = piece(0, 0);
    try_with(rt, b"one of two", collection(2, 1, one, none, 32))?;
    try_with(rt, b"of one", collection(1, 1, one, none, 32))?;
    try_with(rt, b"of 32", collection(32, 1, one, none, 32))?;
    try_with(rt, b"of 33", collection(33, 1, one, none, 32))?;
    try_with(rt, b"none kept", collection(32, 0, one, none, 32))?;
    try_with(rt, b"lacks nothing", collection(2, 2, one, two, 32))?;
    try_with(rt, b"more than lack", collection(2, 33, one, two, 32))
}

// Tries collections whose numbers break a rule, beside some that keep it.
fn try_numbers(rt: &impl Print) -> io::Result<()> {
    let one = piece(1, 5);
    let two = piece(2, 7);
    let none = piece(0, 0);
    try_with(rt, b"number 0", collection(2, 1, piece(0, 5), none, 32))?;
    try_with(
        rt,
        b"number 3 of 2",
        collection(2, 1, piece(3, 5), none, 32),
    )?;
    try_with(rt, b"rising", collection(3, 2, one, two, 32))?;
    try_with(rt, b"falling", collection(3, 2, two, one, 32))?;
    try_with(rt, b"one twice", collection(3, 2, one, one, 32))
}

// Tries collections whose sizes or version break a rule, beside some that keep it.
fn try_sizes(rt: &impl Print) -> io::Result<()> {
    let none = piece(0, 0);
    try_with(
        rt,
        b"16,384 octets",
        collection(2, 1, piece(1, 16356), none, 32),
    )?;
    try_with(
        rt,
        b"16,385 octets",
        collection(2, 1, piece(1, 16357), none, 32),
    )?;
    try_with(
        rt,
        b"a sum over 2^64",
        collection(3, 2, piece(1, 2), piece(2, usize::MAX), 32),
    )?;
    try_with(
        rt,
        b"major version 1",
        collection(3, 1, piece(1, 5), none, 31),
    )?;
    try_with(
        rt,
        b"major version 2",
        collection(3, 1, piece(1, 5), none, 47),
    )?;
    try_with(
        rt,
        b"major version 3",
        collection(3, 1, piece(1, 5), none, 48),
    )?;
    try_with(
        rt,
        b"no fragment 1",
        collection(3, 1, piece(2, 5), none, 48),
    )
}

// Tries them all.
pub(crate) fn try_collections(rt: &impl Print) -> io::Result<()> {
    try_counts(rt)?;
    try_numbers(rt)?;
    try_sizes(rt)
}
