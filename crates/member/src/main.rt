// The member program: reads a default key, then lines of tick and frame in hexadecimal, and prints a line of answer for each of these.
#![tactic(auto)]

mod input;
mod output;
mod running;

ghost use Rattle.std.specs.Prelude.{◌<◌, ◌≤◌, length};
ghost use Rattle.text_rules.specs.Input.{most_digits};
ghost use Rattle.text_lines.specs.inner.Room.{reply_room};
ghost use Rattle.ikev2_numbers.specs.Codes.{most_octets};
ghost use Rattle.member.specs.inner.Standing.{BuffersReady, ReplyFits};
ghost use Rattle.member.specs.inner.Printed.{Emptied, Flushed, Consumed, Ended};
ghost use Rattle.member.specs.inner.Turns.{TurnsLeft};
ghost use Rattle.member.specs.Run.{Runs};

use input::InputTaken;
use output::Handed;
use running::Running;
use std::io::{Stdin, Stdout};
use text_lines::REPLY_ROOM;

// Where the program stands, and what it handed to its output so far.
#[derive(Drop)]
pub struct Progress {
    pub running: Running,
    pub handed: Handed,
}

// What a run took from its input, and what it handed to its output.
#[derive(Drop)]
pub struct Ran {
    pub taken: InputTaken,
    pub handed: Handed,
}

// Hands over all that `out` holds, and frees it for more.
fn emptied(to: Stdout, r: Running, handed: Handed, out: &[u8]) -> Progress
    requires { r.at ≤ length out.now }
    ensures { Emptied r handed out.now result }
{
    let at = r.at;
    let written = output::hand_over(to, handed, out, at);
    Progress {
        running: Running { at: 0, ..r },
        handed: written,
    }
}

// Hands `out` over if it has no room for one more reply.
fn flush(to: Stdout, r: Running, handed: Handed, out: &[u8]) -> Progress
    requires at_in_bounds { r.at ≤ length out.now }
    requires reply_room_in_bounds { reply_room ≤ length out.now }
    ensures { Flushed r handed out.now result }
{
    let at = r.at;
    if REPLY_ROOM <= out.len() - at {
        return Progress { running: r, handed };
    }
    emptied(to, r, handed, out)
}

// Reads the whole `block` and answers its lines. Hands `out` over on the way where a reply finds no room, and at the block's end whatever
// room there is: whoever sends a line and waits gets its answer.
fn consume(
    to: Stdout,
    p: Progress,
    block: &[u8],
    line: &mut [u8],
    room: &mut [u8],
    out: &mut [u8],
) -> Progress
    requires buffers_ready { BuffersReady line.old room.old out.old p.running }
    requires reply_fits { ReplyFits out.old p.running }
    ensures buffers_ready_2 { BuffersReady line.new room.new out.new result.running }
    ensures reply_fits_2 { ReplyFits out.new result.running }
    ensures consumed { Consumed p block.now line.old out.old line.new out.new result }
{
    let mut x = p;
    let mut at = 0;
    while at < block.len() {
        let r = x.running;
        let handed = x.handed;
        let q = running::through(r, block, at, line, room, out);
        at = q.next;
        let y = q.running;
        x = flush(to, y, handed, out);
    }
    let r = x.running;
    let handed = x.handed;
    emptied(to, r, handed, out)
}

// Ends the input: answers a line that has begun, and hands over what `out` holds.
fn ended(to: Stdout, p: Progress, line: &[u8], room: &mut [u8], out: &mut [u8]) -> Handed
    requires buffers_ready { BuffersReady line.now room.old out.old p.running }
    requires reply_fits { ReplyFits out.old p.running }
    ensures { Ended p line.now out.old result }
{
    let r = p.running;
    let handed = p.handed;
    let e = running::finish(r, line, room, out);
    output::hand_over(to, handed, out, e.at)
}

// Answers how many of `turns` are left after one: none if the input has ended or a write failed.
fn turns_left(turns: u64, taken: InputTaken, handed: Handed) -> u64
    requires { 0 < turns }
    ensures { TurnsLeft turns taken handed result }
{
    let ended = input::ended(taken);
    let failed = output::failed(handed);
    if ended {
        return 0;
    }
    if failed {
        return 0;
    }
    turns - 1
}

// Answers the whole input, up to a write that fails. A proved loop has to end, and nothing says that an input does: so it counts its turns
// down from a number that no input uses up.
fn run(
    from: Stdin,
    to: Stdout,
    line: &mut [u8],
    room: &mut [u8],
    out: &mut [u8],
    block: &mut [u8],
) -> Ran
    requires most_digits_in_bounds { most_digits < length line.old }
    requires most_octets_in_bounds { most_octets ≤ length room.old }
    requires reply_room_in_bounds { reply_room ≤ length out.old }
    requires block_nonzero { 0 < length block.old }
    ensures { Runs result }
{
    let running = running::begin();
    let none = output::nothing();
    let mut p = Progress {
        running,
        handed: none,
    };
    let mut taken = input::nothing();
    let mut turns = u64::MAX;
    while turns > 0 {
        let b = input::next(from, taken, block);
        let n = b.n;
        let t = b.taken;
        p = consume(to, p, &block[..n], line, room, out);
        let h = p.handed;
        turns = turns_left(turns, t, h);
        taken = t;
    }
    let handed = ended(to, p, line, room, out);
    Ran { taken, handed }
}

// Room for a line of the most digits that are taken and one character more, by which a longer line is told; and for its frame.
const LINE_ROOM: usize = text_lines::MOST_DIGITS + 1;

const FRAME_ROOM: usize = (text_lines::MOST_DIGITS - text_lines::TICK_DIGITS) / 2;

// Room for what one read takes and for what one write is handed.
const BLOCK_ROOM: usize = 65536;

fn main(rt: HostRuntime) {
    let mut line = [0u8; LINE_ROOM];
    let mut room = [0u8; FRAME_ROOM];
    let mut out = [0u8; BLOCK_ROOM];
    let mut block = [0u8; BLOCK_ROOM];
    run(
        rt.stdin(),
        rt.stdout(),
        &mut line,
        &mut room,
        &mut out,
        &mut block,
    );
}
