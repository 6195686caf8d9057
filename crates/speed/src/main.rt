// `speed wrap|open K`: 10,000 wraps or openings of 36 octets under a key of K octets, which each call expands. `speed frame K`: 100 times
// 41 openings of 264 octets. That was the most that a frame could ask for under document 01's limits: 32 WRAP_KEYs and 9 SA_KEYs in a
// registration, 40 SA_KEYs in a rekey. By T-01 its octets allow 58; the count stays, so that times can be compared. Prints a checksum over
// what was written, so that no call can be left out. Prints nothing for other arguments.
#![tactic(auto)]

use octets::wide;
use std::env::Env;
use std::io;

const TURNS: usize = 10000;

// The openings of a hundred frames.
const FRAMES: usize = 4100;

// Adds one octet to the checksum `sum`, modulo 2^32.
fn added(sum: usize, octet: u8) -> usize {
    (sum % 4294967296 * 31 + wide(octet)) % 4294967296
}

// Adds `octets` to the checksum `start`.
fn checksum(start: usize, octets: &[u8]) -> usize {
    octets.iter().fold(start, |sum, octet| added(sum, *octet))
}

// Adds what a call wrote to the checksum `start`: the room is exact, so that is all of it or nothing.
fn written(start: usize, answer: Option<usize>, room: &[u8]) -> usize {
    if answer.is_some() {
        checksum(start, room)
    } else {
        start
    }
}

// Answers the octets of a turn: its number in the first four, then 13 i + 36 at place i.
fn plain(turn: usize) -> [u8; 36] {
    let mut octets = [0u8; 36];
    octets[2] = (turn / 256 % 256) as u8;
    octets[3] = (turn % 256) as u8;
    octets::copying::copy(
        b"\x58\x65\x72\x7f\x8c\x99\xa6\xb3\xc0\xcd\xda\xe7\xf4\x01\x0e\x1b\x28\x35\x42\x4f\x5c\x69\x76\x83\x90\x9d\xaa\xb7\xc4\xd1\xde\xeb",
        &mut octets[4..],
    );
    octets
}

// Wraps in each turn other octets. Answers the checksum.
fn wraps(key: &[u8]) -> usize {
    let mut room = [0u8; 48];
    let mut sum = 0;
    for turn in 0..TURNS {
        let answer = keywrap::wrap(key, &plain(turn), &mut room);
        sum = written(sum, answer, &room);
    }
    sum
}

// Opens in each turn the same wrapping. Answers the checksum.
fn openings(key: &[u8]) -> usize {
    let mut wrapped = [0u8; 48];
    keywrap::wrap(key, &plain(0), &mut wrapped);
    let mut room = [0u8; 36];
    let mut sum = 0;
    for _ in 0..TURNS {
        let answer = keywrap::open(key, &wrapped, &mut room);
        sum = written(sum, answer, &room);
    }
    sum
}

// Opens as often as a hundred frames can ask for. Answers the checksum.
fn frames(key: &[u8]) -> usize {
    let mut wrapped = [0u8; 264];
    let mut room = [7u8; 256];
    keywrap::wrap(key, &room, &mut wrapped);
    let mut sum = 0;
    for _ in 0..FRAMES {
        let answer = keywrap::open(key, &wrapped, &mut room);
        sum = written(sum, answer, &room);
    }
    sum
}

fn print(rt: &impl Print, sum: usize) -> io::Result<()> {
    rt.println(sum)
}

fn run(rt: &impl Print, mode: &[u8], key: &[u8]) -> io::Result<()> {
    match mode {
        b"wrap" => print(rt, wraps(key)),
        b"open" => print(rt, openings(key)),
        b"frame" => print(rt, frames(key)),
        _ => Ok(()),
    }
}

fn run_if(rt: &impl Print, asked: &[u8], size: &[u8], mode: &[u8], key: &[u8]) -> io::Result<()> {
    if asked == size {
        return run(rt, mode, key);
    }
    Ok(())
}

// Runs `mode` under a key of K octets, where `asked` is K in decimal. The octets of the key are 7 i + K.
fn run_under(rt: &impl Print, asked: &[u8], mode: &[u8]) -> io::Result<()> {
    run_if(
        rt,
        asked,
        b"16",
        mode,
        b"\x10\x17\x1e\x25\x2c\x33\x3a\x41\x48\x4f\x56\x5d\x64\x6b\x72\x79",
    )?;
    run_if(
        rt,
        asked,
        b"24",
        mode,
        b"\x18\x1f\x26\x2d\x34\x3b\x42\x49\x50\x57\x5e\x65\x6c\x73\x7a\x81\x88\x8f\x96\x9d\xa4\xab\xb2\xb9",
    )?;
    run_if(
        rt,
        asked,
        b"32",
        mode,
        b"\x20\x27\x2e\x35\x3c\x43\x4a\x51\x58\x5f\x66\x6d\x74\x7b\x82\x89\x90\x97\x9e\xa5\xac\xb3\xba\xc1\xc8\xcf\xd6\xdd\xe4\xeb\xf2\xf9",
    )
}

fn main(rt: HostRuntime) -> io::Result<()> {
    let mut mode = [0u8; 8];
    let m = rt.arg(1, &mut mode).unwrap_or(0);
    let mut size = [0u8; 8];
    let n = rt.arg(2, &mut size).unwrap_or(0);
    run_under(&rt, &size[..n], &mode[..m])
}
