// Prints the vectors of FIPS 197: appendices A, B and C.
ghost use Rattle.std.specs.Prelude.{◌<◌, T, length};
ghost use Rattle.fips197.specs.Key.{is_key};

use octets::registers::block_of;
use std::io;
use text_names::Hex;

// Prints round key `r` of the equivalent inverse cipher.
fn print_inverse_key(rt: &impl Print, name: &str, schedule: &[u32; 61], r: usize) -> io::Result<()>
    requires { r < 15 }
{
    println!(rt;
        "inverse key {name} {r} {}",
        Hex(&aes::inverse_round_key(schedule, r))
    )
}

// Answers Nr, the number of rounds for `key`.
fn rounds_of(key: &[u8]) -> usize
    requires { T (is_key (length key.now)) }
    ensures { result < 15 }
{
    key.len() / 4 + 6
}

// Prints the cipher of `block`, the inverse cipher of what it gave, and three round keys of the equivalent inverse cipher: the one before
// its rounds, that of the first round and that of the last.
fn both_ways(rt: &impl Print, name: &str, key: &[u8], block: [u8; 16]) -> io::Result<()>
    requires { T (is_key (length key.now)) }
{
    let tables = aes::tables();
    let schedule = aes::expand(&tables, key);
    let encrypted = aes::encrypt(&tables, &schedule.words, block);
    println!(rt; "cipher {name} {}", Hex(&encrypted))?;
    let inverse_tables = aes::inverse_tables();
    let inverse = aes::expand_inverse(&inverse_tables, key);
    let decrypted = aes::decrypt(&inverse_tables, &inverse.words, encrypted);
    println!(rt; "inverse {name} {}", Hex(&decrypted))?;
    print_inverse_key(rt, name, &inverse.words, 0)?;
    print_inverse_key(rt, name, &inverse.words, 1)?;
    print_inverse_key(rt, name, &inverse.words, rounds_of(key))
}

// Prints the last word of the expansion of `key`.
fn expansion(rt: &impl Print, name: &str, key: &[u8]) -> io::Result<()>
    requires { T (is_key (length key.now)) }
{
    let tables = aes::tables();
    let word = aes::last_word(aes::expand(&tables, key));
    println!(rt; "expansion {name} {}", Hex(&word))
}

// Prints appendices B and C.1 to C.3.
#[tactic(auto, unfolding(fips197::specs::Key::is_key))]
pub(crate) fn ciphers(rt: &impl Print) -> io::Result<()> {
    both_ways(
        rt,
        "B",
        b"\x2b\x7e\x15\x16\x28\xae\xd2\xa6\xab\xf7\x15\x88\x09\xcf\x4f\x3c",
        block_of(0x3243f6a8885a308d, 0x313198a2e0370734),
    )?;
    both_ways(
        rt,
        "C.1",
        b"\x00\x01\x02\x03\x04\x05\x06\x07\x08\x09\x0a\x0b\x0c\x0d\x0e\x0f",
        block_of(0x0011223344556677, 0x8899aabbccddeeff),
    )?;
    both_ways(
        rt,
        "C.2",
        b"\x00\x01\x02\x03\x04\x05\x06\x07\x08\x09\x0a\x0b\x0c\x0d\x0e\x0f\x10\x11\x12\x13\x14\x15\x16\x17",
        block_of(0x0011223344556677, 0x8899aabbccddeeff),
    )?;
    both_ways(
        rt,
        "C.3",
        b"\x00\x01\x02\x03\x04\x05\x06\x07\x08\x09\x0a\x0b\x0c\x0d\x0e\x0f\x10\x11\x12\x13\x14\x15\x16\x17\x18\x19\x1a\x1b\x1c\x1d\x1e\x1f",
        block_of(0x0011223344556677, 0x8899aabbccddeeff),
    )
}

// Prints appendices A.1 to A.3.
#[tactic(auto, unfolding(fips197::specs::Key::is_key))]
pub(crate) fn expansions(rt: &impl Print) -> io::Result<()> {
    expansion(
        rt,
        "A.1",
        b"\x2b\x7e\x15\x16\x28\xae\xd2\xa6\xab\xf7\x15\x88\x09\xcf\x4f\x3c",
    )?;
    expansion(
        rt,
        "A.2",
        b"\x8e\x73\xb0\xf7\xda\x0e\x64\x52\xc8\x10\xf3\x2b\x80\x90\x79\xe5\x62\xf8\xea\xd2\x52\x2c\x6b\x7b",
    )?;
    expansion(
        rt,
        "A.3",
        b"\x60\x3d\xeb\x10\x15\xca\x71\xbe\x2b\x73\xae\xf0\x85\x7d\x77\x81\x1f\x35\x2c\x07\x3b\x61\x08\xd7\x2d\x98\x10\xa3\x09\x14\xdf\xf4",
    )
}
