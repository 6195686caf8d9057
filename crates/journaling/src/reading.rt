// Reads a journal block by block, for journals longer than memory.
ghost use Rattle.std.specs.Prelude.{◌≡◌, ℕ, ◌<◌, ◌≤◌, min, List, length};
ghost use Rattle.text_rules.specs.Lines.{lines};
ghost use Rattle.journal_rules.specs.inner.Longest.{longest_octets};
ghost use Rattle.state.specs.declared.State.{State};
ghost use Rattle.journaling.specs.Reader.{BeginsReading, Consumes, Feeds, Gives};
ghost use Rattle.journaling.specs.inner.Advancing.{Ready, Far, LineEnded};

use crate::taking::LONGEST_OCTETS;
use crate::{Replayed, taking};
use gikev2::Member;

// What a reader keeps of a line: one character more than the longest line that can be taken, so that it tells a longer one.
const KEPT: usize = 33287;

// Where a reader stands: the member; how many lines were taken, modulo 2^64; whether a line stopped it; how many characters of the line
// that has begun are held. Kept as a flag: a reader that a line stopped still has its member and its count.
#[derive(Clone, Copy)]
pub struct ReaderPlace {
    pub member: Member,
    pub taken: usize,
    pub stopped: bool,
    pub len: usize,
}

// A reader of a journal. It is a value: `feed` takes it and gives back the next one.
#[derive(Clone, Copy)]
pub struct JournalReader {
    pub place: ReaderPlace,
    pub line: [u8; KEPT],
}

// Answers a reader before the first block, over a new member of this `profile`.
pub fn begin(profile: bool) -> JournalReader
    ensures { BeginsReading profile result }
{
    let member = Member::with_profile(profile);
    let place = ReaderPlace {
        member,
        taken: 0,
        stopped: false,
        len: 0,
    };
    let line = [0u8; KEPT];
    JournalReader { place, line }
}

// Where a reader stands after some octets of a block, and the place behind these (`next`).
#[derive(Clone, Copy)]
pub struct Advanced {
    pub place: ReaderPlace,
    pub next: usize,
}

// Takes a line that has ended: its first `len` characters are in `line`. A line that cannot be taken stops the reader, at the block's end
// `end`.
fn line_ended(p: ReaderPlace, line: &[u8], next: usize, end: usize, room: &mut [u8]) -> Advanced
    requires { longest_octets ≤ length room.old }
    ensures { LineEnded p line.now next end result }
{
    let Some(member) = taking::take_line(p.member, line, room) else {
        let place = ReaderPlace {
            stopped: true,
            len: 0,
            ..p
        };
        return Advanced { place, next: end };
    };
    let place = ReaderPlace {
        member,
        taken: p.taken.wrapping_add(1),
        stopped: false,
        len: 0,
    };
    Advanced { place, next }
}

// Reads `block` from `from` on up to the end of a line, and takes that line. If the block ends before it, keeps its beginning in `line`.
fn advance(p: ReaderPlace, block: &[u8], from: usize, line: &mut [u8], room: &mut [u8]) -> Advanced
    requires ready { Ready line.old room.old p }
    requires from_in_bounds { from < length block.now }
    ensures ready_2 { Ready line.new room.new result.place }
    ensures from_lt_next { from < result.next }
    ensures by_index { (s : State) → (n : ℕ) → (text : List ℕ) → Far s n text block.now p line.old from →
        Far s n text block.now result.place line.new result.next }
{
    let a = text_lines::absorb(block, from, line, p.len);
    let next = a.next;
    let len = a.len;
    if a.ended {
        return line_ended(p, &line[..len], next, block.len(), room);
    }
    let place = ReaderPlace { len, ..p };
    Advanced { place, next }
}

// Reads the whole `block`, line by line. Kept as a loop: a line's end, and not a count, says where the next one begins.
fn read_block(p: ReaderPlace, block: &[u8], line: &mut [u8], room: &mut [u8]) -> ReaderPlace
    requires { Ready line.old room.old p }
    ensures { (s : State) → (n : ℕ) → (text : List ℕ) → Far s n text block.now p line.old 0 →
        Consumes s n text (lines block.now) result line.new }
{
    let mut x = p;
    let mut at = 0;
    while at < block.len() {
        let a = advance(x, block, at, line, room);
        x = a.place;
        at = a.next;
    }
    x
}

// Answers `len`, and at most the characters that a reader keeps.
fn within(len: usize) -> usize
    ensures { result ≡ min len 33287 }
{
    len.min(KEPT)
}

// Reads the next `block` of a journal. A reader that a line stopped stays as it is.
pub fn feed(r: JournalReader, block: &[u8]) -> JournalReader
    ensures { Feeds r block.now result }
{
    let p = r.place;
    if p.stopped {
        return r;
    }
    let mut line = r.line;
    let mut room = [0u8; LONGEST_OCTETS];
    let start = ReaderPlace {
        len: within(p.len),
        ..p
    };
    let place = read_block(start, block, &mut line, &mut room);
    JournalReader { place, line }
}

// Ends the journal: answers the member, and the number of the line that stopped the reading. What no newline ended is not looked at.
pub fn finish(r: JournalReader) -> Replayed
    ensures { Gives r result }
{
    let p = r.place;
    let member = p.member;
    if p.stopped {
        let line = p.taken.wrapping_add(1);
        return Replayed { member, line };
    }
    Replayed { member, line: 0 }
}
