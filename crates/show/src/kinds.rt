// Tells what a line holds: a default key, a bare frame, or a tick and a frame.
use ikev2_numbers::{HEADER, LENGTH_AT};
use std::fmt;
use std::fmt::Write;
use text_faults::places::be32_or_0;

// The size of a tick in octets.
pub(crate) const TICK: usize = 4;

// The most digits of a default key.
const KEY: usize = 64;

// Whether line `number` with this count of `digits` is a default key. Only the first line can be one, and a short first line is never taken
// for a frame.
pub(crate) fn is_key(number: usize, digits: usize) -> bool {
    number == 1 && digits <= KEY
}

fn is_whole(s: &[u8]) -> bool {
    wire_frames::frame_layout(s).is_ok()
}

// Whether the length field of the header of `s` is `s.len()`.
fn is_counted(s: &[u8]) -> bool {
    HEADER <= s.len() && be32_or_0(s, LENGTH_AT) == s.len()
}

// Whether `s` is a tick and a frame, and no bare frame. Decides for the frame that is whole; if neither is, for the one whose length field
// counts its octets; if both or neither do, by the first line: behind a key (`keyed`) come ticks and frames.
fn has_tick(s: &[u8], keyed: bool) -> bool {
    if s.len() < TICK || is_whole(s) {
        return false;
    }
    let rest = &s[TICK..];
    if is_whole(rest) {
        return true;
    }
    match (is_counted(s), is_counted(rest)) {
        (true, false) => false,
        (false, true) => true,
        _ => keyed,
    }
}

// Puts the octets `s` of a line that is no key: its tick, if it has one, and its frame.
pub(crate) fn put_octets(w: &mut impl Write, s: &[u8], keyed: bool) -> fmt::Result {
    let mut frame = s;
    if TICK <= s.len() && has_tick(s, keyed) {
        write!(w, "tick {}, ", be32_or_0(s, 0))?;
        frame = &s[TICK..];
    }
    writeln!(w, "frame of {} octets", frame.len())?;
    crate::frame::put_frame(w, frame)
}
