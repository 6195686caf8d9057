// Prints the published vectors of FIPS 197 and RFC 5649 and further cases of wrapping and opening, one line a case, and a line for each
// case of AES-GCM that fails. `vectors random` prints 10,000 keys and blocks by a rule, enciphered and deciphered.
#![tactic(auto)]

mod blocks;
mod counts;
mod damages;
mod inputs;
mod random;
mod refusals;
mod rooms;
mod sealed;
mod sizes;
mod text;

use std::env::Env;
use std::io;

fn published(rt: &impl Print) -> io::Result<()> {
    blocks::ciphers(rt)?;
    blocks::expansions(rt)?;
    counts::published(rt)?;
    counts::counts(rt, 16)?;
    counts::counts(rt, 24)?;
    counts::counts(rt, 32)?;
    rooms::rooms(rt, 16)?;
    rooms::rooms(rt, 24)?;
    rooms::rooms(rt, 32)?;
    damages::damages(rt)?;
    sizes::sizes(rt)?;
    sealed::sealed(rt)
}

fn main(rt: HostRuntime) -> io::Result<()> {
    let mut mode = [0u8; 8];
    let m = rt.arg(1, &mut mode).unwrap_or(0);
    if &mode[..m] == b"random".as_slice() {
        return random::random(&rt);
    }
    published(&rt)
}
