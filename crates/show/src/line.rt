// Puts what the lines of the tree have in common.
use std::fmt;
use std::fmt::Write;
use text_names::{Hex, tables};

// How far lines are set in: the header and payloads (OUTER); policies, key bags and the fields of D (MIDDLE); what policies and key bags
// hold (INNER); what a transform holds (INMOST).
pub(crate) const OUTER: usize = 2;

pub(crate) const MIDDLE: usize = 4;

pub(crate) const INNER: usize = 6;

pub(crate) const INMOST: usize = 8;

// Puts the start of a line: the offset `at` and the length `len` of a structure, and the indent.
pub(crate) fn put_head(w: &mut impl Write, indent: usize, at: usize, len: usize) -> fmt::Result {
    write!(w, "{at:6}{len:6}{:indent$}", "")
}

// Puts the rest of a line that names the structure `what` by its protocol and SPI.
pub(crate) fn put_protocol_and_spi(
    w: &mut impl Write,
    what: &str,
    protocol: usize,
    spi: &[u8],
) -> fmt::Result {
    writeln!(
        w,
        "{what} {} ({protocol}), SPI {}",
        tables::protocol(protocol),
        Hex(spi)
    )
}
