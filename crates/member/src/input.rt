// Reads standard input, and counts the octets taken from it. The count and the end are private to this file, and `next` alone changes them:
// a promise that asks for the input's end asks for a read that gave nothing.
ghost use Rattle.std.specs.Prelude.{◌≡◌, ◌<◌, ◌≤◌, length, take};
ghost use Rattle.member.specs.inner.Taking.{nothing_taken, TakenIn};

use std::io::{Read, Stdin};

// How many octets were taken from the input, modulo 2^64, and whether the last read gave none.
#[derive(Clone, Copy)]
pub struct InputTaken {
    count: usize,
    ended: bool,
}

// What a read gave: `n` octets at the start of a lent block, and the count and the end after it.
#[derive(Clone, Copy)]
pub struct InputBlock {
    pub n: usize,
    pub taken: InputTaken,
}

// Answers the count and the end before the first read.
pub(crate) fn nothing() -> InputTaken
    ensures { result ≡ nothing_taken }
{
    InputTaken {
        count: 0,
        ended: false,
    }
}

// Reads what is there of the input to the start of `block`: one read, which waits for an octet and not for a full block. Gives no octet at
// the input's end, and none where the read fails. (A block with no room would give none too, and tell nothing of the input.)
pub(crate) fn next(mut input: Stdin, taken: InputTaken, block: &mut [u8]) -> InputBlock
    requires { 0 < length block.old }
    ensures n_in_bounds { result.n ≤ length block.new }
    ensures taken_in { TakenIn taken (take result.n block.new) result.taken }
{
    let n = input.read(block).unwrap_or(0);
    let count = taken.count.wrapping_add(n);
    let next = InputTaken {
        count,
        ended: n == 0,
    };
    InputBlock { n, taken: next }
}

// Whether the last read gave nothing.
pub(crate) fn ended(taken: InputTaken) -> bool
    ensures { result ≡ taken.ended }
{
    taken.ended
}
