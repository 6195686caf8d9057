// Makes the call that a line asks for, and puts what it prints first.
use crate::fragment::put_fragment_reply;
use crate::journal::{put_left, put_received, put_swept};
use crate::sealed::put_sealed_reply;
use crate::text::part;
use crate::traced::{LINE, OCTETS, SEALED_LINE, Traced};
use crate::whole::put_times;
use gikev2::Member;
use gikev2::call::Answer;
use std::fmt;
use std::fmt::Write;
use text_lines::Request;
use text_names::Hex;

// Says that a line which has no answer was carried out.
fn put_done(w: &mut impl Write) -> fmt::Result {
    writeln!(w, "done")
}

// Says that a line is bad.
pub(crate) fn put_bad(w: &mut impl Write) -> fmt::Result {
    writeln!(w, "bad")
}

// Puts a line of `what` and the answer `a`: its number, and on number 1 its figure.
pub(crate) fn put_answer(w: &mut impl Write, what: &str, a: Answer) -> fmt::Result {
    match a {
        Answer::BrokenLayout(at) => writeln!(w, "{what} 1 {at}"),
        _ => writeln!(w, "{what} {}", a.number()),
    }
}

// Makes the call that `line` asks for by its letter, or without one by a tick and a frame.
pub(crate) fn put_reply(t: &mut Traced, line: &[u8], w: &mut impl Write) -> fmt::Result {
    let most = match line.first() {
        Some(b'x' | b'y') => SEALED_LINE,
        _ => LINE,
    };
    if most < line.len() {
        return put_bad(w);
    }
    match line.split_first() {
        Some((b'k', rest)) => lend(t, rest, w),
        Some((b's', rest)) => sweep(t, rest, w),
        Some((b'l', rest)) => leave(t, rest, w),
        Some((b'p', rest)) => begin_anew(t, rest, w),
        Some((b'q', rest)) => put_question(t, rest, w),
        Some((b'j', rest)) => begin_journal(t, rest, w),
        Some((b'x', rest)) => put_sealed_reply(t, rest, w),
        Some((b'y', rest)) => put_fragment_reply(t, rest, w),
        _ => receive(t, line, w),
    }
}

// `k` and octets: sets the lent key for the lines after it.
fn lend(t: &mut Traced, digits: &[u8], w: &mut impl Write) -> fmt::Result {
    if !text_lines::is_hex(digits) {
        return put_bad(w);
    }
    t.lent = Some(text_lines::put_octets(&mut t.key, 0, digits));
    put_done(w)
}

// `s` and a tick: sweeps the member.
fn sweep(t: &mut Traced, digits: &[u8], w: &mut impl Write) -> fmt::Result {
    let mut room = [0; OCTETS];
    match text_lines::later_line(digits, &mut room) {
        Some(Request { tick, len: 0 }) => {
            if t.journaled {
                return put_swept(t, tick, w);
            }
            t.member = t.member.sweep(tick);
            put_done(w)
        }
        _ => put_bad(w),
    }
}

// `l` alone: the member leaves.
fn leave(t: &mut Traced, rest: &[u8], w: &mut impl Write) -> fmt::Result {
    if !rest.is_empty() {
        return put_bad(w);
    }
    if t.journaled {
        return put_left(t, w);
    }
    t.member = t.member.leave();
    put_done(w)
}

// `p` and two digits: a new member without the profile (`p00`) or with it (`p01`).
fn begin_anew(t: &mut Traced, digits: &[u8], w: &mut impl Write) -> fmt::Result {
    match digits {
        b"00" => t.member = Member::with_profile(false),
        b"01" => t.member = Member::with_profile(true),
        _ => return put_bad(w),
    }
    put_done(w)
}

// `q`, a protocol and an SPI: asks the member for an SA.
fn put_question(t: &Traced, digits: &[u8], w: &mut impl Write) -> fmt::Result {
    let mut room = [0; OCTETS];
    if !text_lines::is_hex(digits) {
        return put_bad(w);
    }
    let n = text_lines::put_octets(&mut room, 0, digits);
    match part(&room, 0, n).split_first() {
        Some((protocol, spi)) => put_sa_answer(t, *protocol, spi, w),
        None => put_bad(w),
    }
}

fn put_sa_answer(t: &Traced, protocol: u8, spi: &[u8], w: &mut impl Write) -> fmt::Result {
    let Some(a) = t.member.sa(protocol, spi) else {
        return writeln!(w, "none");
    };
    write!(w, "found {}", Hex(part(&a.octets, 0, a.count)))?;
    put_times(w, a.condition, a.lifetime)?;
    writeln!(w)
}

// `j` alone: steps are journaled from then on.
fn begin_journal(t: &mut Traced, rest: &[u8], w: &mut impl Write) -> fmt::Result {
    if !rest.is_empty() {
        return put_bad(w);
    }
    t.journaled = true;
    put_done(w)
}

// A tick and a frame: receives the frame with the lent key.
fn receive(t: &mut Traced, line: &[u8], w: &mut impl Write) -> fmt::Result {
    let mut room = [0; OCTETS];
    match text_lines::later_line(line, &mut room) {
        None => put_bad(w),
        Some(Request { tick, len }) => {
            let frame = part(&room, 0, len);
            if t.journaled {
                return put_received(t, frame, tick, w);
            }
            let lent = t.lent.unwrap_or(0);
            let x = t.member.receive(frame, part(&t.key, 0, lent), tick);
            t.member = x.member;
            put_answer(w, "answer", x.answer)
        }
    }
}
