// Gathers text in a room of its own, and hands it to standard output whenever the room is full.
ghost use Rattle.std.specs.Prelude.{◌≡◌, ◌≤◌};

use std::fmt;

// Text on its way to standard output. Whether a write failed is told once, by the call that made it.
#[derive(Drop)]
pub struct Page<'a, P: Print, const ROOM: usize> {
    rt: &'a P,
    room: [u8; ROOM],
    // how many octets at the front of the room are text that was not written yet
    pub filled: usize,
    ghost within: { filled ≤ ROOM },
}

impl<'a, P: Print, const ROOM: usize> Page<'a, P, ROOM> {
    // Makes a page with no text.
    pub fn new(rt: &'a P) -> Self
        ensures { result.filled ≡ 0 }
    {
        Page {
            rt,
            room: [0; ROOM],
            filled: 0,
        }
    }

    // Writes what has gathered. Nothing of it is left, also after a write that failed.
    pub fn flush(&mut self) -> fmt::Result
        ensures { self.new.filled ≡ 0 }
    {
        let written = self.rt.write_all(&self.room[..self.filled]);
        self.filled = 0;
        written.map_err(|_| fmt::Error)
    }

    fn put(&mut self, octet: u8) -> fmt::Result {
        if self.filled == ROOM {
            self.flush()?;
        }
        if self.filled < ROOM {
            self.room[self.filled] = octet;
            self.filled += 1;
        }
        Ok(())
    }
}

impl<'a, P: Print, const ROOM: usize> fmt::Write for Page<'a, P, ROOM> {
    fn write_str(&mut self, s: &str) -> fmt::Result {
        for octet in s.as_bytes() {
            self.put(*octet)?;
        }
        Ok(())
    }
}
