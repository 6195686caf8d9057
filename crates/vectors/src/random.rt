// Enciphers and deciphers blocks from a generator under keys of all sizes, for a comparison with other programs.
ghost use Rattle.std.specs.Prelude.{T, length};
ghost use Rattle.fips197.specs.Key.{is_key};

use octets::registers::{be64_at, block_of};
use std::io;
use text_names::Hex;

const COUNT: usize = 10000;

const SEED: u64 = 0x9e3779b97f4a7c15;

// Answers the number after `x`: xorshift with the shifts 13, 7 and 17.
fn next(x: u64) -> u64 {
    let a = x ^ (x << 13);
    let b = a ^ (a >> 7);
    b ^ (b << 17)
}

// Octets for a key and a block, and the generator's number behind them.
#[derive(Drop)]
struct Drawn {
    octets: [u8; 48],
    state: u64,
}

// Draws 48 octets: the lowest octet of each number after `x`.
fn draw(x: u64) -> Drawn {
    let mut octets = [0u8; 48];
    let mut state = x;
    for octet in &mut octets {
        state = next(state);
        *octet = (state % 256) as u8;
    }
    Drawn { octets, state }
}

// Prints a key and a block, the block's cipher and its inverse cipher.
fn print_blocks(rt: &impl Print, key: &[u8], block: [u8; 16]) -> io::Result<()>
    requires { T (is_key (length key.now)) }
{
    let tables = aes::tables();
    let schedule = aes::expand(&tables, key);
    let encrypted = aes::encrypt(&tables, &schedule.words, block);
    let inverse_tables = aes::inverse_tables();
    let inverse = aes::expand_inverse(&inverse_tables, key);
    let decrypted = aes::decrypt(&inverse_tables, &inverse.words, block);
    print!(rt; "random {} {} ", Hex(key), Hex(&block))?;
    println!(rt; "{} {}", Hex(&encrypted), Hex(&decrypted))
}

// Prints the blocks of one turn. The key is the first 16, 24 or 32 octets by `turn`, the block the last 16.
fn print_sized(rt: &impl Print, turn: usize, octets: [u8; 48]) -> io::Result<()> {
    let block = block_of(be64_at(&octets, 32), be64_at(&octets, 40));
    let kind = turn % 3;
    if kind == 0 {
        print_blocks(rt, &octets[0..16], block)
    } else if kind == 1 {
        print_blocks(rt, &octets[0..24], block)
    } else {
        print_blocks(rt, &octets[0..32], block)
    }
}

// Prints the blocks of all turns.
pub(crate) fn random(rt: &impl Print) -> io::Result<()> {
    let mut x = SEED;
    for turn in 0..COUNT {
        let drawn = draw(x);
        print_sized(rt, turn, drawn.octets)?;
        x = drawn.state;
    }
    Ok(())
}
