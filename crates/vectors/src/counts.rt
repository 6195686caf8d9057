// Wraps and opens by RFC 5649: its own examples, and every kind of octet count.
use crate::inputs::{LENT, first, key, plain, written};
use std::io;
use text_names::Hex;

const COUNTS: [usize; 14] = [1, 7, 8, 9, 15, 16, 17, 20, 24, 36, 44, 68, 255, 256];

fn print_written(rt: &impl Print, answer: Option<usize>, room: &[u8]) -> io::Result<()> {
    match answer {
        None => println!(rt; "no"),
        Some(n) => println!(rt; "{}", Hex(first(room, n))),
    }
}

// Prints what `octets` wrap to.
fn print_wrapped(rt: &impl Print, key: &[u8], octets: &[u8]) -> io::Result<()> {
    let mut room = [LENT; 264];
    let answer = keywrap::wrap(key, octets, &mut room);
    print_written(rt, answer, &room)
}

// Prints what the wrapping of `octets` opens to.
fn print_opened(rt: &impl Print, key: &[u8], octets: &[u8]) -> io::Result<()> {
    let mut wrapped = [LENT; 264];
    let wrapping = keywrap::wrap(key, octets, &mut wrapped);
    let mut room = [LENT; 256];
    let answer = keywrap::open(key, written(wrapping, &wrapped), &mut room);
    print_written(rt, answer, &room)
}

fn example(rt: &impl Print, octets: &[u8]) -> io::Result<()> {
    let key =
        b"\x58\x40\xdf\x6e\x29\xb0\x2a\xf1\xab\x49\x3b\x70\x5b\xf1\x6e\xa1\xae\x83\x38\xf4\xdc\xc1\x76\xa8";
    print!(rt; "rfc5649 {} wrap ", octets.len())?;
    print_wrapped(rt, key, octets)?;
    print!(rt; "rfc5649 {} open ", octets.len())?;
    print_opened(rt, key, octets)
}

// Prints the examples of RFC 5649, section 6.
pub(crate) fn published(rt: &impl Print) -> io::Result<()> {
    example(
        rt,
        b"\xc3\x7b\x7e\x64\x92\x58\x43\x40\xbe\xd1\x22\x07\x80\x89\x41\x15\x50\x68\xf7\x38",
    )?;
    example(rt, b"ForPasi")
}

fn both_ways(rt: &impl Print, size: usize, count: usize) -> io::Result<()> {
    let key_octets = key(size);
    let octets = plain(count);
    print!(rt; "wrap {size} {count} ")?;
    print_wrapped(rt, first(&key_octets, size), first(&octets, count))?;
    print!(rt; "open {size} {count} ")?;
    print_opened(rt, first(&key_octets, size), first(&octets, count))
}

// Wraps and opens each of the counts under a key of `size` octets.
pub(crate) fn counts(rt: &impl Print, size: usize) -> io::Result<()> {
    for count in &COUNTS {
        both_ways(rt, size, *count)?;
    }
    Ok(())
}
