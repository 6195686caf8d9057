// Makes calls that must answer "no" and leave a large room as lent.
use crate::inputs::LENT;
use crate::text::Told;
use std::io;

// Prints `answer`, and beside it "room changed" where `room` is not as it was lent.
fn print_refusal(rt: &impl Print, answer: Option<usize>, room: &[u8]) -> io::Result<()> {
    let changed = !room.iter().all(|octet| *octet == LENT);
    println!(rt;
        "{}{}",
        Told(answer),
        if changed { ", room changed" } else { "" }
    )
}

// Opens `wrapped`, and prints the refusal.
pub(crate) fn refused_open(rt: &impl Print, key: &[u8], wrapped: &[u8]) -> io::Result<()> {
    let mut room = [LENT; 272];
    let answer = keywrap::open(key, wrapped, &mut room);
    print_refusal(rt, answer, &room)
}

// Wraps `octets`, and prints the refusal.
pub(crate) fn refused_wrap(rt: &impl Print, key: &[u8], octets: &[u8]) -> io::Result<()> {
    let mut room = [LENT; 272];
    let answer = keywrap::wrap(key, octets, &mut room);
    print_refusal(rt, answer, &room)
}
