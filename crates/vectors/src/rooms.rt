// Wraps and opens 20 octets into rooms that are too small by one, exact, and larger than needed. Prints the whole room after each call.
use crate::inputs::{LENT, first, key, plain, wrapped_20};
use crate::text::Told;
use std::io;
use text_names::Hex;

fn print_line(
    rt: &impl Print,
    size: usize,
    kind: &str,
    answer: Option<usize>,
    room: &[u8],
) -> io::Result<()> {
    println!(rt;
        "room {size} {kind} {} {} {}",
        room.len(),
        Told(answer),
        Hex(room)
    )
}

fn wrap_into(rt: &impl Print, size: usize, room: &mut [u8]) -> io::Result<()> {
    let key_octets = key(size);
    let octets = plain(20);
    let answer = keywrap::wrap(first(&key_octets, size), first(&octets, 20), room);
    print_line(rt, size, "wrap", answer, room)
}

fn open_into(rt: &impl Print, size: usize, room: &mut [u8]) -> io::Result<()> {
    let key_octets = key(size);
    let wrapped = wrapped_20(size);
    let answer = keywrap::open(first(&key_octets, size), &wrapped, room);
    print_line(rt, size, "open", answer, room)
}

// Tries all rooms under a key of `size` octets.
pub(crate) fn rooms(rt: &impl Print, size: usize) -> io::Result<()> {
    wrap_into(rt, size, &mut [LENT; 31])?;
    wrap_into(rt, size, &mut [LENT; 32])?;
    wrap_into(rt, size, &mut [LENT; 40])?;
    open_into(rt, size, &mut [LENT; 19])?;
    open_into(rt, size, &mut [LENT; 20])?;
    open_into(rt, size, &mut [LENT; 30])
}
