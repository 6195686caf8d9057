// Registers from octets, and octets from registers.
ghost use Rattle.std.specs.Prelude.{◌≡◌, ◌++◌, ◌+◌, ◌-◌, ◌*◌, ◌/◌, ◌≤◌, length, replicate};
ghost use Rattle.rfc5649.specs.Wrap.{blocks, registers, register_octets, start_registers};
ghost use Rattle.keywrap.specs.Answers.{written};

use crate::sizes::{MOST_OCTETS, REGISTERS};
use octets::registers::{be64_at, octets_of};

// Reads `octets` into the registers `s`, eight for each.
pub(crate) fn load(octets: &[u8], s: &mut [u64])
    requires { length octets.now ≡ 8 * length s.old }
    ensures { s.new ≡ registers (length s.old) octets.now }
{
    for (i, register) in s.iter_mut().enumerate() {
        *register = be64_at(octets, 8 * i);
    }
}

// Writes the octets of the registers `s` at the start of `room`.
pub(crate) fn store(s: &[u64], room: &mut [u8])
    requires { 8 * length s.now ≤ length room.old }
    ensures { room.new ≡ written (register_octets s.now) room.old }
{
    for (i, register) in s.iter().enumerate() {
        let at = 8 * i;
        octets::copying::copy(&octets_of(*register), &mut room[at..]);
    }
}

// Sets up the registers A, R[1], .., R[n] for wrapping `octets`, with zeros behind: A is the alternative initial value of RFC 5649, section
// 3, the others are the padded octets.
pub(crate) fn start_registers(octets: &[u8]) -> [u64; REGISTERS]
    requires { (1 ≤ length octets.now) × (length octets.now ≤ 256) }
    ensures { result ≡ start_registers octets.now ++ replicate (32 - blocks (length octets.now)) 0 }
{
    let m = octets.len();
    let n = (m + 7) / 8;
    let mut padded = [0u8; MOST_OCTETS];
    octets::copying::copy(octets, &mut padded);
    let mut s = [0u64; REGISTERS];
    s[0] = 0xa65959a600000000 + m as u64;
    let e = 8 * n;
    load(&padded[..e], &mut s[1..n + 1]);
    s
}
