// Reads characters to lines of digits. Passes over blanks, tabs, CR and a 0x in front of a word; capitals are digits.
use crate::kinds::{TICK, is_key, put_octets};
use ikev2_numbers::MOST_OCTETS;
use std::fmt;
use std::fmt::Write;
use text_faults::places::part;

// The most octets of a line that is shown, a tick and a frame, and its most digits.
const OCTETS: usize = TICK + MOST_OCTETS;

const DIGITS: usize = 2 * OCTETS;

// What was read of the input. Of a line that is too long one digit more than the most is held, which tells that it is.
// Kept as an array with its count, since memory is fixed.
#[derive(Drop)]
pub(crate) struct Reading {
    // the digits of the line so far, `held` of them, and room for its octets
    digits: [u8; DIGITS + 1],
    held: usize,
    octets: [u8; OCTETS],
    // whether the first line was a key
    keyed: bool,
    // the number of the line that is read
    number: usize,
    // how many characters the line has so far, and how many its last word has
    seen: usize,
    word: usize,
    // the place of the first character of the line that is no digit
    wrong: Option<usize>,
}

impl Reading {
    // Begins before the first character of line 1.
    pub(crate) fn new() -> Reading {
        Reading {
            digits: [0; DIGITS + 1],
            held: 0,
            octets: [0; OCTETS],
            keyed: false,
            number: 1,
            seen: 0,
            word: 0,
            wrong: None,
        }
    }

    // Takes all characters of `block`, and shows the lines that end in it.
    pub(crate) fn take(&mut self, w: &mut impl Write, block: &[u8]) -> fmt::Result {
        for c in block {
            if *c == b'\n' {
                self.end_line(w)?;
            } else {
                self.take_character(*c);
            }
        }
        Ok(())
    }

    // Ends the input: shows a line that has begun.
    pub(crate) fn finish(&mut self, w: &mut impl Write) -> fmt::Result {
        if self.seen == 0 {
            return Ok(());
        }
        self.end_line(w)
    }

    fn take_character(&mut self, c: u8) {
        self.seen = self.seen.saturating_add(1);
        self.word = self.word.saturating_add(1);
        match c {
            b'\t' | b'\r' | b' ' => self.word = 0,
            b'0'..=b'9' | b'a'..=b'f' => self.take_digit(c),
            b'A'..=b'F' => self.take_digit(c + 32),
            b'x' | b'X' if self.word == 2 && self.ends_in_zero() => {
                self.held = self.held.saturating_sub(1);
            }
            _ => self.wrong = self.wrong.or(Some(self.seen)),
        }
    }

    fn take_digit(&mut self, c: u8) {
        if self.held < self.digits.len() {
            self.digits[self.held] = c;
            self.held += 1;
        }
    }

    // Whether the last digit that is held is 0.
    fn ends_in_zero(&self) -> bool {
        part(&self.digits, 0, self.held).last() == Some(&b'0')
    }

    // Ends a line: shows it, and begins the next one.
    fn end_line(&mut self, w: &mut impl Write) -> fmt::Result {
        self.put_line(w)?;
        self.keyed = self.keyed || is_key(self.number, self.held);
        self.number = self.number.saturating_add(1);
        self.held = 0;
        self.seen = 0;
        self.word = 0;
        self.wrong = None;
        Ok(())
    }

    // Puts the number of the line and what its digits hold, or why they cannot be shown.
    fn put_line(&mut self, w: &mut impl Write) -> fmt::Result {
        write!(w, "line {}: ", self.number)?;
        let count = self.held;
        if let Some(at) = self.wrong {
            return writeln!(w, "character {at} is no hexadecimal digit");
        }
        if DIGITS < count {
            return writeln!(w, "more than {DIGITS} digits");
        }
        if count % 2 == 1 {
            return writeln!(w, "{count} digits, an odd count");
        }
        if is_key(self.number, count) {
            return writeln!(w, "default key of {} octets, not shown", count / 2);
        }
        if count == 0 {
            return writeln!(w, "empty");
        }
        let len = text_lines::put_octets(&mut self.octets, 0, part(&self.digits, 0, count));
        put_octets(w, part(&self.octets, 0, len), self.keyed)
    }
}
