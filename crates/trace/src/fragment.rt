// A line `y`, a room's length, a tick and a fragment: receives the fragment with a room of that many octets and the collection that the
// last such line left. Puts the answer, the numbers of the fragments that wait, and what was written.
use crate::calls::{put_answer, put_bad};
use crate::journal::put_opened;
use crate::sealed::{LENT, MOST_ROOM, opened, put_wrote, read_asked};
use crate::traced::{OCTETS, Traced};
use fragments::Collection;
use gikev2::fragment::FragmentAnswer;
use std::fmt;
use std::fmt::Write;

// Puts the line of the answer `a`.
fn put_fragment_answer(w: &mut impl Write, a: FragmentAnswer) -> fmt::Result {
    match a {
        FragmentAnswer::Refused(x) => put_answer(w, "refused", x),
        FragmentAnswer::PassedOver => writeln!(w, "passed over"),
        FragmentAnswer::Waiting => writeln!(w, "waiting"),
        FragmentAnswer::Complete(x) => put_answer(w, "complete", x),
    }
}

// Puts the line of the fragments that are kept.
fn put_waits(w: &mut impl Write, c: &Collection) -> fmt::Result {
    write!(w, "waits")?;
    for p in c.pieces.iter().take(c.count) {
        write!(w, " {}", p.number)?;
    }
    writeln!(w)
}

// Whether the answer is that of a complete frame which was accepted.
fn is_accepted(a: FragmentAnswer) -> bool {
    match a {
        FragmentAnswer::Complete(x) => x.number() == 0,
        _ => false,
    }
}

// Replies to a fragment. `digits` is the line without its letter. Journals the whole frame, if steps are journaled.
pub(crate) fn put_fragment_reply(t: &mut Traced, digits: &[u8], w: &mut impl Write) -> fmt::Result {
    let mut line = [0; OCTETS];
    let Some(a) = read_asked(digits, &mut line) else {
        return put_bad(w);
    };
    let mut rooms = [LENT; MOST_ROOM];
    let room = &mut rooms[..a.size];
    let before = t.member;
    let x = before.receive_fragment(t.collection, a.octets, room, a.tick);
    t.member = x.member;
    t.collection = x.collection;
    put_fragment_answer(w, x.answer)?;
    put_waits(w, &t.collection)?;
    put_wrote(w, room)?;
    if t.journaled && is_accepted(x.answer) {
        put_opened(before, opened(room), a.tick, w)?;
    }
    Ok(())
}
