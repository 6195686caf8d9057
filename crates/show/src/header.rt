// Shows the IKE header of a frame.
use crate::line::{OUTER, put_head};
use ikev2_numbers::{EXCHANGE_AT, FLAGS_AT, HEADER, MESSAGE_ID_AT, MINOR_VERSIONS, VERSION_AT};
use std::fmt;
use std::fmt::Write;
use text_faults::places::{be32_or_0, octet, part};
use text_names::{Hex, tables};

// The octets of the two SPIs at the start of a header.
const SPIS: usize = 16;

// The flags that are named (RFC 7296, section 3.1): bits 3, 4 and 5.
const INITIATOR: usize = 8;

const VERSION: usize = 16;

const RESPONSE: usize = 32;

// Puts the line of the header of `s`.
pub(crate) fn put_header(w: &mut impl Write, s: &[u8]) -> fmt::Result {
    let kind = octet(s, EXCHANGE_AT);
    let version = octet(s, VERSION_AT);
    let (major, minor) = (version / MINOR_VERSIONS, version % MINOR_VERSIONS);
    put_head(w, OUTER, 0, HEADER)?;
    write!(
        w,
        "header {} ({kind}), version {major}.{minor}, flags ",
        tables::exchange(kind)
    )?;
    put_flags(w, octet(s, FLAGS_AT))?;
    let id = be32_or_0(s, MESSAGE_ID_AT);
    writeln!(w, ", SPI {}, Message ID {id}", Hex(part(s, 0, SPIS)))
}

// Puts the flags `x`, and the names of those that are set.
fn put_flags(w: &mut impl Write, x: usize) -> fmt::Result {
    write!(w, "0x{x:02x}")?;
    put_flag(w, x, INITIATOR, "Initiator")?;
    put_flag(w, x, VERSION, "Version")?;
    put_flag(w, x, RESPONSE, "Response")
}

fn put_flag(w: &mut impl Write, x: usize, flag: usize, name: &str) -> fmt::Result {
    if x & flag != 0 {
        write!(w, " {name}")?;
    }
    Ok(())
}
