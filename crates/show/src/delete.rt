// Shows the body of a Delete payload.
use crate::frame::Shown;
use crate::line::{MIDDLE, put_head};
use ikev2_numbers::{DELETE_COUNT_AT, DELETE_HEAD};
use std::fmt;
use std::fmt::Write;
use text_faults::places::be16_or_0;
use text_names::{Hex, tables};

// Puts the fields of the body from `from` to `to`, and its SPIs if the protocol is one with SPIs.
pub(crate) fn put_delete(w: &mut impl Write, f: Shown, from: usize, to: usize) -> fmt::Result {
    let protocol = f.octet(from);
    let size = f.octet(from.saturating_add(1));
    let count = be16_or_0(f.octets, from.saturating_add(DELETE_COUNT_AT));
    put_head(w, MIDDLE, from, DELETE_HEAD)?;
    writeln!(
        w,
        "{} ({protocol}), SPI size {size}, count {count}",
        tables::protocol(protocol)
    )?;
    if wire_policies::spi_size(protocol) == 0 {
        return Ok(());
    }
    put_spis(w, size, f.part(0, to), from.saturating_add(DELETE_HEAD))
}

// Puts the SPIs of `size` octets each, from `from` to the end of `s`.
fn put_spis(w: &mut impl Write, size: usize, s: &[u8], from: usize) -> fmt::Result {
    let mut at = from;
    while at < s.len() {
        if size == 0 || s.len() - at < size {
            return Ok(());
        }
        put_head(w, MIDDLE, at, size)?;
        writeln!(w, "SPI {}", Hex(&s[at..at + size]))?;
        at += size;
    }
    Ok(())
}
