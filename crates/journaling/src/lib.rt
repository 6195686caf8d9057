// A member's journal (document 02, T-13): each step of a member as a line of text, written before the step takes effect, and the member
// made again from these lines.
#![tactic(auto)]

pub mod reading;
pub mod taking;

ghost use Rattle.std.specs.Prelude.{◌≡◌, ℕ, ◌≤◌, List, length};
ghost use Rattle.ikev2_numbers.specs.Codes.{most_octets};
ghost use Rattle.state_keys.specs.Rooms.{wrapping_key_room};
ghost use Rattle.rules_outcome.specs.Run.{Event, handed, sweep as swept, leave as left};
ghost use Rattle.journal_rules.specs.Line.{entry_octets, line_of};
ghost use Rattle.journaling.specs.Calls.{figure_in, JournalsStep, JournalsFrame};
ghost use Rattle.journaling.specs.Reader.{GivesBack};
ghost use Rattle.journaling.specs.inner.LinePutting.{text_of, PutsLine, Writable, StepTaken};

use gikev2::Member;
use gikev2::call::Answer;
use ikev2_numbers::{EXCHANGE_AT, GSA_REKEY};

// Octets enough for every line: a key length, a key of 32 octets, a tick and a frame of 16,384 in digits, and a newline.
pub const LINE_ROOM: usize = 32843;

// Why a step was not journaled: room and member stay as they were.
#[derive(Clone, Copy, Debug, PartialEq, Eq)]
pub enum JournalError {
    // the room is too small for the line
    NoRoom,
    // the member refuses the frame
    Refused(Answer),
}

// The entry and the next member. `Ok`: a line of so many octets stands at the room's start, and the member took the step. Store the line
// before you use the member.
#[derive(Clone, Copy)]
pub struct Journaled {
    pub entry: Result<usize, JournalError>,
    pub member: Member,
}

// Writes the line of `key`, `tick` and `frame` to the start of `room`, if it finds room there. Answers its length.
fn put_entry(room: &mut [u8], key: &[u8], tick: u32, frame: &[u8]) -> Option<usize>
    requires key_len_bound { length key.now ≤ wrapping_key_room }
    requires frame_len_bound { length frame.now ≤ most_octets }
    ensures { PutsLine (text_of (entry_octets key.now tick frame.now)) room.old room.new result }
{
    let len = key.len();
    if room.len() < 2 * (5 + len + frame.len()) + 1 {
        return None;
    }
    let head = [len as u8];
    let t = tick.to_be_bytes();
    let a = text_lines::put_digits(room, 0, &head);
    let b = text_lines::put_digits(room, a, key);
    let c = text_lines::put_digits(room, b, &t);
    let d = text_lines::put_digits(room, c, frame);
    Some(text_lines::put(room, d, b'\n'))
}

// Writes the line of a `frame` that the member accepts. The lent key of a GSA_REKEY is not read, and so is not written.
fn put_frame(room: &mut [u8], frame: &[u8], lent: &[u8], tick: u32) -> Option<usize>
    requires { Writable frame.now lent.now }
    ensures { PutsLine (line_of (handed frame.now lent.now tick)) room.old room.new result }
{
    if octets::wide(frame[EXCHANGE_AT]) == GSA_REKEY {
        return put_entry(room, b"", tick, frame);
    }
    put_entry(room, lent, tick, frame)
}

// Writes the line of leaving.
fn put_leaving(room: &mut [u8]) -> Option<usize>
    ensures { PutsLine (line_of left) room.old room.new result }
{
    if room.len() < 3 {
        return None;
    }
    let mark = [255u8];
    let a = text_lines::put_digits(room, 0, &mark);
    Some(text_lines::put(room, a, b'\n'))
}

// Answers what became of a step from `member` to `next` whose line has so many octets, or found no room.
fn entered(member: Member, next: Member, line: Option<usize>) -> Journaled
    ensures by_index { (x : Event) → (room after : List ℕ) → StepTaken member x next → PutsLine (line_of x) room after line →
        JournalsStep member x room result after }
    ensures result_value { figure_in result.entry ≡ 0 }
{
    match line {
        Some(n) => Journaled {
            entry: Ok(n),
            member: next,
        },
        None => Journaled {
            entry: Err(JournalError::NoRoom),
            member,
        },
    }
}

// Receives `frame` as `Member::receive` does, and writes its line to the start of `room`. Hands back the next member with the line, so that
// the line can be stored before the frame takes effect. A frame that is refused writes nothing, whatever the room.
pub fn receive(member: Member, frame: &[u8], lent: &[u8], tick: u32, room: &mut [u8]) -> Journaled
    ensures { JournalsFrame member frame.now lent.now tick room.old result room.new }
{
    let x = member.receive(frame, lent, tick);
    let answer = x.answer;
    if answer.number() != 0 {
        return Journaled {
            entry: Err(JournalError::Refused(answer)),
            member,
        };
    }
    let line = put_frame(room, frame, lent, tick);
    entered(member, x.member, line)
}

// Sweeps `member` as `Member::sweep` does, and writes the line of the sweep to the start of `room`, also where no SA is due.
pub fn sweep(member: Member, tick: u32, room: &mut [u8]) -> Journaled
    ensures { JournalsStep member (swept tick) room.old result room.new }
{
    let line = put_entry(room, b"", tick, b"");
    let next = member.sweep(tick);
    entered(member, next, line)
}

// Leaves the group as `Member::leave` does, and writes the line of leaving to the start of `room`, also where the member is new.
pub fn leave(member: Member, room: &mut [u8]) -> Journaled
    ensures { JournalsStep member left room.old result room.new }
{
    let line = put_leaving(room);
    let next = member.leave();
    entered(member, next, line)
}

// A journal read back: the member, and the number of the line that stopped the reading, from 1, or 0 if none did.
#[derive(Clone, Copy)]
pub struct Replayed {
    pub member: Member,
    pub line: usize,
}

// Reads `journal` back onto a new member of this `profile`. Octets behind the last newline are not looked at.
pub fn replay(journal: &[u8], profile: bool) -> Replayed
    ensures { GivesBack profile journal.now result }
{
    let start = reading::begin(profile);
    let r = reading::feed(start, journal);
    reading::finish(r)
}
