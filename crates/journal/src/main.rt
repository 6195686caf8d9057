// Reads a journal (document 02, T-13) from standard input, and prints how many SAs and how many held keys the member has that it makes.
// Where a line stopped the reading, prints its number behind them. The member's profile is off. Prints no octet of a key.
#![tactic(auto)]

ghost use Rattle.std.specs.Prelude.{◌<◌, ◌≡◌, length};
ghost use Rattle.text_lines.specs.inner.Room.{Put};
ghost use Rattle.journal.specs.Report.{report_text, WasFed, TurnsAfter};

use journaling::reading;
use journaling::reading::JournalReader;
use std::io::{Read, Stdin, Write};

// Octets enough for three numbers of at most 20 digits, with a mark behind each.
const REPORT: usize = 63;

// Answers how many of `turns` are left after a read of `n` octets: none at the input's end.
fn turns_after(turns: u64, n: usize) -> u64
    requires { 0 < turns }
    ensures { TurnsAfter turns n result }
{
    if n == 0 {
        return 0;
    }
    turns - 1
}

// Reads the whole input, block by block. A proved loop has to end, and nothing says that an input does: so it counts its turns down from a
// number that no input uses up.
fn read_input(mut input: Stdin, block: &mut [u8]) -> JournalReader
    ensures { WasFed result }
{
    let mut r = reading::begin(false);
    let mut turns = u64::MAX;
    while turns > 0 {
        let n = input.read(block).unwrap_or(0);
        let next = reading::feed(r, &block[..n]);
        r = next;
        turns = turns_after(turns, n);
    }
    r
}

// Writes the counts `sas` and `held` to the start of `room`, and `line` behind them, unless it is 0. Answers the place behind the text.
fn put_report(room: &mut [u8], sas: usize, held: usize, line: usize) -> usize
    ensures { Put room.old 0 (report_text sas held line) room.new result }
{
    let a = text_lines::put_number(room, 0, sas);
    let b = text_lines::put(room, a, b' ');
    let c = text_lines::put_number(room, b, held);
    if line == 0 {
        return text_lines::put(room, c, b'\n');
    }
    let d = text_lines::put(room, c, b' ');
    let e = text_lines::put_number(room, d, line);
    text_lines::put(room, e, b'\n')
}

// Room for what one read takes.
const BLOCK_ROOM: usize = 65536;

fn main(rt: HostRuntime) {
    let mut block = [0u8; BLOCK_ROOM];
    let r = read_input(rt.stdin(), &mut block);
    let x = reading::finish(r);
    let member = x.member;
    let state = member.state;
    let mut room = [0u8; REPORT];
    let n = put_report(&mut room, state.table.count, state.held.count, x.line);
    if n <= REPORT {
        let mut output = rt.stdout();
        let _ = output.write_all(&room[0..n]);
    }
}
