// Makes keys and octets by a rule, and takes parts of them.
ghost use Rattle.std.specs.Prelude.{◌≡◌, length};

// The octet that a room is full of when it is lent.
pub(crate) const LENT: u8 = 0xee;

// Answers the octets start + step i modulo 256, for i from 0 on.
pub(crate) fn sequence(start: usize, step: u8) -> [u8; 272]
    ensures { 272 ≡ length result }
{
    let mut octets = [0u8; 272];
    let mut next = (start % 256) as u8;
    for octet in &mut octets {
        *octet = next;
        next = next.wrapping_add(step);
    }
    octets
}

// Answers octets that start with the key of `size` octets.
pub(crate) fn key(size: usize) -> [u8; 272]
    ensures { 272 ≡ length result }
{
    sequence(size, 7)
}

// Answers octets that start with the `count` octets to wrap.
pub(crate) fn plain(count: usize) -> [u8; 272]
    ensures { 272 ≡ length result }
{
    sequence(count, 13)
}

// Answers the first `n` octets, or all where there are fewer.
pub(crate) fn first(octets: &[u8], n: usize) -> &[u8] {
    octets.get(..n).unwrap_or(octets)
}

// Answers what a call with this `answer` wrote to the start of `room`.
pub(crate) fn written(answer: Option<usize>, room: &[u8]) -> &[u8] {
    first(room, answer.unwrap_or(0))
}

// Wraps the first 20 octets of `plain(20)` under a key of `size` octets.
pub(crate) fn wrapped_20(size: usize) -> [u8; 32] {
    let octets = plain(20);
    let key_octets = key(size);
    let mut room = [LENT; 32];
    keywrap::wrap(first(&key_octets, size), first(&octets, 20), &mut room);
    room
}
