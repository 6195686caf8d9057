// Shows IP addresses.
use std::fmt;
use text_faults::places::be16_or_0;

// An address: 4 octets are shown in decimal with dots, others as the groups of an IPv6 address.
#[derive(Clone, Copy)]
pub(crate) struct Address<'a>(pub(crate) &'a [u8]);

impl<'a> fmt::Display for Address<'a> {
    fn fmt<W: fmt::Write>(&self, f: &mut fmt::Formatter<W>) -> fmt::Result {
        if let [a, b, c, d] = self.0 {
            return write!(f, "{a}.{b}.{c}.{d}");
        }
        put_groups(f, self.0)
    }
}

// Puts each two octets of an IPv6 address as one number, with colons between the numbers.
fn put_groups<W: fmt::Write>(f: &mut fmt::Formatter<W>, octets: &[u8]) -> fmt::Result {
    for group in 0..octets.len().div_ceil(2) {
        if 0 < group {
            write!(f, ":")?;
        }
        write!(f, "{:x}", be16_or_0(octets, 2 * group))?;
    }
    Ok(())
}
