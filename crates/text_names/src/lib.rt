// Text on its way to standard output (`Page`), octets in hexadecimal (`Hex`), and names of code numbers (`tables`).
// Internal: crates of this repository alone call it.
#![tactic(auto)]

pub mod page;
pub mod tables;

use std::{fmt, str};

// Octets that are shown in hexadecimal, two digits each.
#[derive(Clone, Copy)]
pub struct Hex<'a>(pub &'a [u8]);

// How many octets are shown at a time.
const PIECE: usize = 64;

impl<'a> fmt::Display for Hex<'a> {
    // Hands the digits over piece by piece, because a call of the formatter for each octet takes several times as long.
    fn fmt<W: fmt::Write>(&self, f: &mut fmt::Formatter<W>) -> fmt::Result {
        let mut digits = [0u8; 2 * PIECE];
        for piece in self.0.chunks(PIECE) {
            let n = text_lines::put_digits(&mut digits, 0, piece);
            let text = digits.get(..n).unwrap_or(&[]);
            f.write_str(str::from_utf8(text).map_err(|_| fmt::Error)?)?;
        }
        Ok(())
    }
}
