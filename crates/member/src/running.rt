// The program between its reads and its writes, on lent room: octets of input go in, replies come out.
ghost use Rattle.std.specs.Prelude.{◌≡◌, ℕ, ◌-◌, ◌<◌, ◌≤◌, List, ◌++◌, length, take};
ghost use Rattle.ikev2_numbers.specs.Codes.{most_octets};
ghost use Rattle.text_rules.specs.Answer.{answer_text};
ghost use Rattle.text_lines.specs.inner.Reading.{TextState, Finishes};
ghost use Rattle.text_lines.specs.inner.Room.{reply_room, Put};
ghost use Rattle.gikev2.specs.Receive.{number_of, figure_of};
ghost use Rattle.gikev2.specs.declared.Member.{Member};
ghost use Rattle.member.specs.Program.{LineAnswers};
ghost use Rattle.member.specs.inner.Reply.{Answered, FirstLine, LaterLine, LineReceived};
ghost use Rattle.member.specs.inner.Standing.{BuffersReady, ReplyFits, Stands, Starts, Passes};

use gikev2::Member;
use gikev2::call::Answer;
use text_lines::{LineKey, REPLY_ROOM};

// Where the program stands: the member; the default key, and whether the first line has given it yet (`keyed`); how many characters of the
// line that has begun are held (`len`); the place in the output (`at`).
#[derive(Drop)]
pub struct Running {
    pub member: Member,
    pub key: LineKey,
    pub keyed: bool,
    pub len: usize,
    pub at: usize,
}

// Answers where the program starts: a new member, and no key yet.
pub(crate) fn begin() -> Running
    ensures { Starts result }
{
    let member = Member::new();
    let key = text_lines::key_line(b"");
    Running {
        member,
        key,
        keyed: false,
        len: 0,
        at: 0,
    }
}

// Takes the default key from the first line.
fn first_line(r: Running, line: &[u8]) -> Running
    ensures { (out : List ℕ) → FirstLine r line.now out out result }
{
    Running {
        key: text_lines::key_line(line),
        keyed: true,
        len: 0,
        ..r
    }
}

// Writes the reply to a frame into `out` from `at` on: the answer `a`, and the counts `sas` and `held`. Answers the place behind it.
fn put_reply(out: &mut [u8], at: usize, a: Answer, sas: usize, held: usize) -> usize
    ensures put { Put out.old at (answer_text (number_of a) sas held (figure_of a)) out.new result }
    ensures a_len_bound { length (answer_text (number_of a) sas held (figure_of a)) ≤ reply_room }
{
    let number = a.number();
    let figure = a.figure();
    text_lines::put_answer(out, at, number, sas, held, figure)
}

// Lets the member receive `frame` at `tick`, and puts the reply into `out`.
fn receive_frame(r: Running, frame: &[u8], tick: u32, out: &mut [u8]) -> Running
    requires { r.key.len ≤ 32 }
    ensures { LineReceived r tick frame.now out.old out.new result }
{
    let m = r.member;
    let key = r.key;
    let octets = key.octets;
    let len = key.len;
    let x = m.receive(frame, &octets[..len], tick);
    let member = x.member;
    let state = member.state;
    let at = put_reply(out, r.at, x.answer, state.table.count, state.held.count);
    Running {
        member,
        len: 0,
        at,
        ..r
    }
}

// Receives the frame of a later line and puts the reply into `out`, or the reply to a bad line. The frame goes to the start of `room`.
fn later_line(r: Running, line: &[u8], room: &mut [u8], out: &mut [u8]) -> Running
    requires len_bound { r.key.len ≤ 32 }
    requires most_octets_in_bounds { most_octets ≤ length room.old }
    ensures { LaterLine r line.now out.old out.new result }
{
    match text_lines::later_line(line, room) {
        None => {
            let at = text_lines::put_bad(out, r.at);
            Running { len: 0, at, ..r }
        }
        Some(asked) => receive_frame(r, &room[..asked.len], asked.tick, out),
    }
}

// Answers a whole line: the first one gives the key, each later one gets a reply.
fn answer_line(r: Running, line: &[u8], room: &mut [u8], out: &mut [u8]) -> Running
    requires len_bound { r.key.len ≤ 32 }
    requires most_octets_in_bounds { most_octets ≤ length room.old }
    ensures { Answered r.keyed r line.now out.old out.new result }
{
    if r.keyed {
        return later_line(r, line, room, out);
    }
    first_line(r, line)
}

// Where the program stands after some octets of a block, and the place behind these (`next`).
#[derive(Drop)]
pub struct LinePassed {
    pub running: Running,
    pub next: usize,
}

// Reads `block` from `from` on up to the end of a line, and answers that line. If the block ends before it, keeps its beginning in `line`.
fn advance(
    r: Running,
    block: &[u8],
    from: usize,
    line: &mut [u8],
    room: &mut [u8],
    out: &mut [u8],
) -> LinePassed
    requires buffers_ready { BuffersReady line.old room.old out.old r }
    requires reply_fits { ReplyFits out.old r }
    requires from_in_bounds { from < length block.now }
    ensures passes { Passes block.now from line.old out.old r line.new room.new
        out.new result }
    ensures from_lt_next { from < result.next }
{
    let a = text_lines::absorb(block, from, line, r.len);
    let next = a.next;
    let len = a.len;
    if a.ended {
        let running = answer_line(r, &line[..len], room, out);
        return LinePassed { running, next };
    }
    let running = Running { len, ..r };
    LinePassed { running, next }
}

// Reads `block` from `from` on, line by line, as far as there is room in `out` for replies.
pub(crate) fn through(
    r: Running,
    block: &[u8],
    from: usize,
    line: &mut [u8],
    room: &mut [u8],
    out: &mut [u8],
) -> LinePassed
    requires buffers_ready { BuffersReady line.old room.old out.old r }
    requires from_in_bounds { from ≤ length block.now }
    ensures passes { Passes block.now from line.old out.old r line.new room.new
        out.new result }
    ensures from_lt_next { from < length block.now → ReplyFits out.old r → from < result.next }
{
    let mut x = r;
    let mut at = from;
    while at < block.len() && REPLY_ROOM <= out.len() - x.at {
        let p = advance(x, block, at, line, room, out);
        x = p.running;
        at = p.next;
    }
    LinePassed {
        running: x,
        next: at,
    }
}

// Ends the input: answers a line that has begun.
pub(crate) fn finish(r: Running, line: &[u8], room: &mut [u8], out: &mut [u8]) -> Running
    requires buffers_ready { BuffersReady line.now room.old out.old r }
    requires reply_fits { ReplyFits out.old r }
    ensures at_in_bounds { result.at ≤ length out.new }
    ensures by_index { (printed : List ℕ) (x : TextState Member) → Stands printed x line.now out.old r →
        Finishes LineAnswers x (printed ++ take result.at out.new) }
{
    let len = r.len;
    if len == 0 {
        return r;
    }
    answer_line(r, &line[..len], room, out)
}
