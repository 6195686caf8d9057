// Steps that are journaled (document 02, T-13), from a line `j` on: each puts its line behind what its call prints first.
use crate::calls::put_answer;
use crate::text::part;
use crate::traced::Traced;
use gikev2::Member;
use journaling::{JournalError, Journaled, LINE_ROOM};
use std::fmt::Write;
use std::{fmt, str};

// Puts a journaled step: `accepted` is what it prints first where it took effect; then its line stands at the start of `room`.
fn put_entry(
    w: &mut impl Write,
    e: Result<usize, JournalError>,
    accepted: &str,
    room: &[u8],
) -> fmt::Result {
    match e {
        Ok(n) => {
            writeln!(w, "{accepted}")?;
            put_line(w, part(room, 0, n))
        }
        Err(JournalError::NoRoom) => writeln!(w, "no room"),
        Err(JournalError::Refused(a)) => put_answer(w, "answer", a),
    }
}

// Puts the line of a step, which ends in a newline.
fn put_line(w: &mut impl Write, line: &[u8]) -> fmt::Result {
    write!(w, "line {}", str::from_utf8(line).unwrap_or(""))
}

// Takes the step `j`, and puts what it prints.
fn put_step(
    t: &mut Traced,
    j: Journaled,
    accepted: &str,
    room: &[u8],
    w: &mut impl Write,
) -> fmt::Result {
    t.member = j.member;
    put_entry(w, j.entry, accepted, room)
}

// Lets the member receive `frame`, journaled.
pub(crate) fn put_received(
    t: &mut Traced,
    frame: &[u8],
    tick: u32,
    w: &mut impl Write,
) -> fmt::Result {
    let mut room = [0; LINE_ROOM];
    let lent = t.lent.unwrap_or(0);
    let j = journaling::receive(t.member, frame, part(&t.key, 0, lent), tick, &mut room);
    put_step(t, j, "answer 0", &room, w)
}

// Sweeps the member, journaled.
pub(crate) fn put_swept(t: &mut Traced, tick: u32, w: &mut impl Write) -> fmt::Result {
    let mut room = [0; LINE_ROOM];
    let j = journaling::sweep(t.member, tick, &mut room);
    put_step(t, j, "done", &room, w)
}

// Lets the member leave, journaled.
pub(crate) fn put_left(t: &mut Traced, w: &mut impl Write) -> fmt::Result {
    let mut room = [0; LINE_ROOM];
    let j = journaling::leave(t.member, &mut room);
    put_step(t, j, "done", &room, w)
}

// Puts the line of a rekey that came sealed and was accepted: `frame` is what was opened, and `before` the member before it.
pub(crate) fn put_opened(
    before: Member,
    frame: &[u8],
    tick: u32,
    w: &mut impl Write,
) -> fmt::Result {
    let mut room = [0; LINE_ROOM];
    let j = journaling::receive(before, frame, b"", tick, &mut room);
    match j.entry {
        Ok(n) => put_line(w, part(&room, 0, n)),
        Err(_) => Ok(()),
    }
}
