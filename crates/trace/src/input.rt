// Reads lines from standard input, and answers each as soon as it was read.
use crate::text::part;
use crate::traced::{SEALED_LINE, Traced};
use std::fmt;
use std::io::{Input, Read};

// The most octets of a read.
const BLOCK: usize = 4096;

// Answers a whole line on standard output.
fn answer(rt: &impl Print, t: &mut Traced, line: &[u8]) -> fmt::Result {
    let reply = t.answer(line)?;
    rt.write_all(reply.behind(0)).map_err(|_| fmt::Error)
}

// Takes all lines of `block`. Answers how many characters of a line that has begun stand at the start of `line` then.
fn take_block(
    rt: &impl Print,
    t: &mut Traced,
    block: &[u8],
    line: &mut [u8],
    len: usize,
) -> Result<usize, fmt::Error> {
    let mut held = len;
    let mut at = 0;
    while at < block.len() {
        let a = text_lines::absorb(block, at, line, held);
        held = a.len;
        at = a.next;
        if a.ended {
            answer(rt, t, part(line, 0, held))?;
            held = 0;
        }
    }
    Ok(held)
}

// Answers all lines of the input, up to a write that fails. `line` has room for a line and for one character more, which tells that a line
// is too long. A proved loop has to end, and nothing says that the input does: it has more turns than any run uses up.
pub(crate) fn trace(rt: &(impl Print + Input)) -> fmt::Result {
    let mut t = Traced::new()?;
    let mut input = rt.reader();
    let mut line = [0; SEALED_LINE + 1];
    let mut block = [0; BLOCK];
    let mut held = 0;
    for _ in 0..u64::MAX {
        let n = input.read(&mut block).unwrap_or(0);
        if n == 0 {
            break;
        }
        held = take_block(rt, &mut t, part(&block, 0, n), &mut line, held)?;
    }
    if 0 < held {
        answer(rt, &mut t, part(&line, 0, held))?;
    }
    Ok(())
}
