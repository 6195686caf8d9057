// A line `x`, a room's length, a tick and a frame: receives the sealed frame with a room of that many octets, and puts the answer and what
// was written.
ghost use Rattle.std.specs.Prelude.{◌≤◌};
ghost use Rattle.trace.specs.declared.sealed.TheConstants.{MOST_ROOM};

use crate::calls::{put_answer, put_bad};
use crate::journal::put_opened;
use crate::text::part;
use crate::traced::{FRAME, OCTETS, Traced};
use ikev2_numbers::{HEADER, LENGTH_AT};
use octets::numbers::be32_at;
use std::fmt;
use std::fmt::Write;
use text_names::Hex;

// What each octet of the room is before the call.
pub(crate) const LENT: u8 = 0xa5;

// The most octets of a room.
pub(crate) const MOST_ROOM: usize = 2 * FRAME;

// What a line with a room asks: the room's length, the tick, and the octets of the frame or fragment.
#[derive(Clone, Copy)]
pub(crate) struct Asked<'a> {
    pub(crate) size: usize,
    pub(crate) tick: u32,
    pub(crate) octets: &'a [u8],
    ghost within: { size ≤ MOST_ROOM },
}

// Reads what a line with a room asks. `digits` is the line without its letter; its octets go to the start of `line`. Answers nothing for a
// line that is not hexadecimal or too short, and for a room that is too long.
pub(crate) fn read_asked<'a>(digits: &[u8], line: &'a mut [u8]) -> Option<Asked<'a>> {
    if !text_lines::is_hex(digits) {
        return None;
    }
    let n = text_lines::put_octets(line, 0, digits);
    let given = part(line, 0, n);
    if given.len() < 8 {
        return None;
    }
    let size = be32_at(given, 0) as usize;
    if MOST_ROOM < size {
        return None;
    }
    Some(Asked {
        size,
        tick: be32_at(given, 4),
        octets: &given[8..],
    })
}

// Answers the octets of the opened frame at the start of `room`, as its header counts them.
pub(crate) fn opened(room: &[u8]) -> &[u8] {
    if room.len() < HEADER {
        return &[];
    }
    part(room, 0, be32_at(room, LENGTH_AT) as usize)
}

// Puts the line of what was written, if `room` is not as lent.
pub(crate) fn put_wrote(w: &mut impl Write, room: &[u8]) -> fmt::Result {
    if room.iter().all(|o| *o == LENT) {
        return Ok(());
    }
    writeln!(w, "wrote {}", Hex(opened(room)))
}

// Replies to a sealed frame. `digits` is the line without its letter. Journals what was opened, if steps are journaled.
pub(crate) fn put_sealed_reply(t: &mut Traced, digits: &[u8], w: &mut impl Write) -> fmt::Result {
    let mut line = [0; OCTETS];
    let Some(a) = read_asked(digits, &mut line) else {
        return put_bad(w);
    };
    let mut rooms = [LENT; MOST_ROOM];
    let room = &mut rooms[..a.size];
    let before = t.member;
    let x = before.receive_sealed(a.octets, room, a.tick);
    t.member = x.member;
    put_answer(w, "answer", x.answer)?;
    put_wrote(w, room)?;
    if t.journaled && x.answer.number() == 0 {
        put_opened(before, opened(room), a.tick, w)?;
    }
    Ok(())
}
