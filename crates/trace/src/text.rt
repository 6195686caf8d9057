// Text that gathers in a room of its own.
ghost use Rattle.std.specs.Prelude.{◌≤◌};

use std::fmt;

// Text of at most `ROOM` octets.
// Kept as an array with its count, since memory is fixed.
#[derive(Drop)]
pub(crate) struct Text<const ROOM: usize> {
    room: [u8; ROOM],
    len: usize,
    ghost within: { len ≤ ROOM },
}

impl<const ROOM: usize> Text<ROOM> {
    pub(crate) fn new() -> Text<ROOM> {
        Text {
            room: [0; ROOM],
            len: 0,
        }
    }

    pub(crate) fn len(&self) -> usize {
        self.len
    }

    // Answers the text from `from` on, or none if it is shorter.
    pub(crate) fn behind(&self, from: usize) -> &[u8] {
        part(&self.room, from, self.len)
    }

    // Drops the text from `len` on.
    pub(crate) fn truncate(&mut self, len: usize) {
        if len < self.len {
            self.len = len;
        }
    }

    // Puts `octets` as they stand. Is an error where they find no room.
    pub(crate) fn put_all(&mut self, octets: &[u8]) -> fmt::Result {
        let n = octets.len();
        let room = &mut self.room[..];
        let Some(free) = room[self.len..].get_mut(..n) else {
            return Err(fmt::Error);
        };
        free.copy_from_slice(octets);
        self.len += n;
        Ok(())
    }
}

impl<const ROOM: usize> fmt::Write for Text<ROOM> {
    fn write_str(&mut self, s: &str) -> fmt::Result {
        self.put_all(s.as_bytes())
    }
}

// Answers the octets of `s` from `from` up to `to`, or none if these are not all within `s`.
pub(crate) fn part(s: &[u8], from: usize, to: usize) -> &[u8] {
    s.get(from..to).unwrap_or(&[])
}
