// What the program keeps from line to line.
use crate::calls;
use crate::text::Text;
use crate::whole::{MOST, put_member};
use fragments::Collection;
use gikev2::Member;
use journaling::LINE_ROOM;
use std::fmt;
use text_lines::MOST_KEY_OCTETS;

// The most octets of a frame.
pub(crate) const FRAME: usize = 16384;

// The most characters of a line that is taken: a letter, a tick, a frame.
pub(crate) const LINE: usize = 1 + 8 + 2 * FRAME;

// The same of a line with a sealed frame: a room's length more.
pub(crate) const SEALED_LINE: usize = LINE + 8;

// The most octets that a line holds.
pub(crate) const OCTETS: usize = SEALED_LINE / 2;

// The most characters that a call prints first: the answer or an SA, the octets of an opened frame, the line of a step that is journaled.
const FIRST: usize = 512 + 2 * FRAME + LINE_ROOM;

// Room for all that a call prints.
pub(crate) const REPLY: usize = FIRST + MOST;

// The member, the fragments that wait, the lent key with how many octets it has (none before the first line), whether steps are journaled,
// and the member's text that was printed last.
#[derive(Drop)]
pub(crate) struct Traced {
    pub(crate) member: Member,
    pub(crate) collection: Collection,
    pub(crate) key: [u8; OCTETS],
    pub(crate) lent: Option<usize>,
    pub(crate) journaled: bool,
    told: Text<MOST>,
}

impl Traced {
    // Begins with a new member, whose text counts as printed.
    pub(crate) fn new() -> Result<Traced, fmt::Error> {
        let member = Member::new();
        let mut told = Text::new();
        put_member(&mut told, &member)?;
        Ok(Traced {
            member,
            collection: Collection::new(),
            key: [0; OCTETS],
            lent: None,
            journaled: false,
            told,
        })
    }

    // Takes the lent key from the first line.
    fn take_key(&mut self, line: &[u8]) {
        let k = text_lines::key_line(line);
        self.key[..MOST_KEY_OCTETS].copy_from_slice(&k.octets);
        self.lent = Some(k.len);
    }

    // Answers a whole line: what its call prints first, and behind it the member, if its text differs from the one printed last.
    pub(crate) fn answer(&mut self, line: &[u8]) -> Result<Text<REPLY>, fmt::Error> {
        let mut out = Text::new();
        if self.lent.is_none() {
            self.take_key(line);
            return Ok(out);
        }
        calls::put_reply(self, line, &mut out)?;
        let first = out.len();
        put_member(&mut out, &self.member)?;
        if out.behind(first) == self.told.behind(0) {
            out.truncate(first);
        } else {
            self.told.truncate(0);
            self.told.put_all(out.behind(first))?;
        }
        Ok(out)
    }
}
