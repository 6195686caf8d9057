// Tries keys, octets and wrappings of sizes that are answered with "no".
use crate::inputs::{first, key, plain, sequence, wrapped_20};
use crate::refusals::{refused_open, refused_wrap};
use std::io;

// Wraps and opens under a key of `size` octets.
fn key_size(rt: &impl Print, size: usize) -> io::Result<()> {
    let key_octets = key(size);
    let octets = plain(20);
    let wrapped = wrapped_20(16);
    print!(rt; "size key {size} wrap ")?;
    refused_wrap(rt, first(&key_octets, size), first(&octets, 20))?;
    print!(rt; "size key {size} open ")?;
    refused_open(rt, first(&key_octets, size), &wrapped)
}

// Wraps `count` octets.
fn octet_count(rt: &impl Print, count: usize) -> io::Result<()> {
    let key_octets = key(16);
    let octets = plain(count);
    print!(rt; "size octets {count} ")?;
    refused_wrap(rt, first(&key_octets, 16), first(&octets, count))
}

// Opens a wrapping of `count` octets.
fn wrapped_count(rt: &impl Print, count: usize) -> io::Result<()> {
    let key_octets = key(16);
    let octets = sequence(0, 1);
    print!(rt; "size wrapped {count} ")?;
    refused_open(rt, first(&key_octets, 16), first(&octets, count))
}

// Tries all these sizes.
pub(crate) fn sizes(rt: &impl Print) -> io::Result<()> {
    for size in [0, 8, 15, 17, 20, 28, 33] {
        key_size(rt, size)?;
    }
    for count in [0, 257] {
        octet_count(rt, count)?;
    }
    for count in [0, 8, 15, 17, 23, 265, 272] {
        wrapped_count(rt, count)?;
    }
    Ok(())
}
