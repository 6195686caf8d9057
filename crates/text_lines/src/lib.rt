// The text of the member program, on slices: hexadecimal, lines, what a line asks, what is printed. Nothing here knows the member.
// Internal: crates of this repository alone call it.
#![tactic(auto)]

ghost use Rattle.std.specs.Prelude.{◌≡◌, ◌∷◌, [], ◌++◌, ◌+◌, ◌-◌, ◌*◌, ◌/◌, ◌%◌, ◌<◌, ◌≤◌, min, length, take, get_or};
ghost use Rattle.text_rules.specs.Hex.{is_digit, digit_value_of, digit_of, are_digits, is_hex, octets_of_hex, digits_of, number_from};
ghost use Rattle.text_rules.specs.Input.{is_taken};
ghost use Rattle.text_rules.specs.Answer.{decimal, answer_text, bad_text};
ghost use Rattle.text_lines.specs.inner.Room.{Put};
ghost use Rattle.text_lines.specs.inner.Calls.{Absorbs, KeyLineGives, Asks};

// Writes `octet` to `room[at]`, if `at` lies within `room`. Answers the place behind it, or `at` if nothing was written.
pub fn put(room: &mut [u8], at: usize, octet: u8) -> usize
    ensures { Put room.old at (octet ∷ []) room.new result }
{
    if at < room.len() {
        room[at] = octet;
        return at + 1;
    }
    at
}

// Whether `c` is a hexadecimal digit (0-9 or a-f). Has no branch, because a processor cannot foresee the digits of a frame.
fn is_digit(c: u8) -> bool
    ensures { result ≡ is_digit c }
{
    ((b'0' <= c) & (c <= b'9')) | ((b'a' <= c) & (c <= b'f'))
}

// Answers the value of the hexadecimal digit `c`, or 0 for another character. In ASCII 0 to 9 are 0x30 to 0x39, a to f are 0x61 to 0x66.
fn value_of(c: u8) -> u8
    ensures { (result ≡ digit_value_of c) × (result < 16) }
{
    if is_digit(c) {
        return c % 16 + 9 * (c / 64);
    }
    0
}

// What is added to the value of a digit from 10 on, so that 10 is written a.
const BEFORE_LETTERS: u8 = b'a' - 10;

// Answers the hexadecimal digit of value `v`.
fn digit_of(v: u8) -> u8
    requires { v < 16 }
    ensures { result ≡ digit_of v }
{
    if v < 10 {
        return b'0' + v;
    }
    BEFORE_LETTERS + v
}

// Whether every character of `text` is a hexadecimal digit. Reads `text` to its end in any case: a test of each character would cost more
// than the rest of a bad line.
fn are_digits(text: &[u8]) -> bool
    ensures { result ≡ are_digits text.now }
{
    let mut so_far = true;
    for c in text {
        let one = is_digit(*c);
        so_far &= one;
    }
    so_far
}

// Whether `text` is hexadecimal: digits alone, and an even count of them.
pub fn is_hex(text: &[u8]) -> bool
    ensures { result ≡ is_hex text.now }
{
    are_digits(text) && text.len() % 2 == 0
}

// Reads the digits `text[i]` and `text[i + 1]` as an octet, the higher digit first.
fn octet_at(text: &[u8], i: usize) -> u8
    requires { i + 1 < length text.now }
    ensures { result ≡ 16 * digit_value_of (get_or text.now i 0) + digit_value_of (get_or text.now (i + 1) 0) }
{
    16 * value_of(text[i]) + value_of(text[i + 1])
}

// Answers how many of `n` octets find room from `at` on in a room of `size` octets.
fn fitting(n: usize, at: usize, size: usize) -> usize
    ensures { result ≡ min n (size - at) }
{
    n.min(size.saturating_sub(at))
}

// Writes the octets of the hexadecimal `text` into `room` from `at` on, as many as find room. Answers the place behind them. Their number
// is known before the loop, because the compiler then reads many digits at a time.
pub fn put_octets(room: &mut [u8], at: usize, text: &[u8]) -> usize
    ensures { Put room.old at (octets_of_hex text.now) room.new result }
{
    let n = fitting(text.len() / 2, at, room.len());
    for k in 0..n {
        room[at + k] = octet_at(text, 2 * k);
    }
    at + n
}

// Writes the two digits of `octet` into `room` from `at` on, the higher first. Answers the place behind them.
fn put_octet(room: &mut [u8], at: usize, octet: u8) -> usize
    ensures { Put room.old at (digit_of (octet / 16) ∷ digit_of (octet % 16) ∷ []) room.new result }
{
    let half = put(room, at, digit_of(octet / 16));
    put(room, half, digit_of(octet % 16))
}

// Writes `octets` as hexadecimal text into `room` from `at` on, as much as finds room. Answers the place behind it.
pub fn put_digits(room: &mut [u8], at: usize, octets: &[u8]) -> usize
    ensures { Put room.old at (digits_of octets.now) room.new result }
{
    let mut place = at;
    for octet in octets {
        place = put_octet(room, place, *octet);
    }
    place
}

// What `absorb` took from a block: the place behind it (`next`), how many characters the lent line holds now (`len`), and whether a newline
// ended the line (`ended`). Kept as a flag: the place and the count stand whether or not the line ended.
#[derive(Clone, Copy)]
pub struct Absorbed {
    pub next: usize,
    pub len: usize,
    pub ended: bool,
}

// Takes `block` from `from` on, up to the first newline or to its end, and writes it into `line` behind the `len` characters held there.
// Passes over the characters that find no room in `line`.
pub fn absorb(block: &[u8], from: usize, line: &mut [u8], len: usize) -> Absorbed
    ensures { Absorbs block.now from line.old len line.new result }
{
    let mut held = len;
    for at in from..block.len() {
        let c = block[at];
        if c == b'\n' {
            return Absorbed {
                next: at + 1,
                len: held,
                ended: true,
            };
        }
        held = put(line, held, c);
    }
    Absorbed {
        next: from.max(block.len()),
        len: held,
        ended: false,
    }
}

// Whether `text` is hexadecimal and has at least `least` and at most `most` digits.
fn is_taken(text: &[u8], least: usize, most: usize) -> bool
    ensures { result ≡ is_taken least most text.now }
{
    least <= text.len() && text.len() <= most && is_hex(text)
}

// A tick has 8 digits, 32 bits; a line at most these and two for each octet of the largest frame. A key has at most 32 octets.
pub const TICK_DIGITS: usize = 8;

pub const MOST_DIGITS: usize = 32776;

pub const MOST_KEY_DIGITS: usize = 64;

pub const MOST_KEY_OCTETS: usize = 32;

// The default key: the first `len` octets. The places behind them are 0.
// Kept as an array with its count, since memory is fixed.
#[derive(Clone, Copy)]
pub struct LineKey {
    pub octets: [u8; MOST_KEY_OCTETS],
    pub len: usize,
}

// Reads the default key from the first line. A line that is not hexadecimal or has over 64 digits gives an empty key.
pub fn key_line(line: &[u8]) -> LineKey
    ensures { KeyLineGives line.now result }
{
    let mut octets = [0u8; MOST_KEY_OCTETS];
    if !is_taken(line, 0, MOST_KEY_DIGITS) {
        return LineKey { octets, len: 0 };
    }
    let len = put_octets(&mut octets, 0, line);
    LineKey { octets, len }
}

// Reads the first 8 digits of `text` as a number.
fn tick_of(text: &[u8]) -> u32
    requires { 8 ≤ length text.now }
    ensures { result ≡ number_from 0 (take 8 text.now) }
{
    let a = octet_at(text, 0);
    let b = octet_at(text, 2);
    let c = octet_at(text, 4);
    let d = octet_at(text, 6);
    u32::from_be_bytes([a, b, c, d])
}

// What a later line asks: the answer to a frame at a tick. The frame is the first `len` octets of a lent room.
#[derive(Clone, Copy)]
pub struct Request {
    pub tick: u32,
    pub len: usize,
}

// Reads a later line: a tick of 8 digits, and a frame; `None` for a bad line. Writes the frame to the start of `room`; a room of 16,384
// octets holds every frame.
pub fn later_line(line: &[u8], room: &mut [u8]) -> Option<Request>
    ensures { Asks line.now room.old room.new result }
{
    if !is_taken(line, TICK_DIGITS, MOST_DIGITS) {
        return None;
    }
    let tick = tick_of(line);
    let len = put_octets(room, 0, &line[TICK_DIGITS..]);
    Some(Request { tick, len })
}

// Octets enough for the text of any answer: four numbers of at most 20 digits, with a mark behind each.
pub const REPLY_ROOM: usize = 84;

const DIGIT_0: usize = b'0' as usize;

// Writes `n` in decimal into `room` from `at` on, as much as finds room. Answers the place behind it.
pub fn put_number(room: &mut [u8], at: usize, n: usize) -> usize
    ensures { Put room.old at (decimal n) room.new result }
{
    if n < 10 {
        return put(room, at, (DIGIT_0 + n) as u8);
    }
    let last = put_number(room, at, n / 10);
    put(room, last, (DIGIT_0 + n % 10) as u8)
}

// Writes `n` in decimal and the character `mark` into `room` from `at` on. Answers the place behind them.
fn put_field(room: &mut [u8], at: usize, n: usize, mark: u8) -> usize
    ensures { Put room.old at (decimal n ++ (mark ∷ [])) room.new result }
{
    let last = put_number(room, at, n);
    put(room, last, mark)
}

// Writes the text of an answer into `room` from `at` on: `number`, `sas`, `held`, and on number 1 also `figure`. Answers the place behind
// it.
pub fn put_answer(
    room: &mut [u8],
    at: usize,
    number: usize,
    sas: usize,
    held: usize,
    figure: usize,
) -> usize
    ensures { Put room.old at (answer_text number sas held figure) room.new result }
{
    let second = put_field(room, at, number, b' ');
    let third = put_field(room, second, sas, b' ');
    if number == 1 {
        let fourth = put_field(room, third, held, b' ');
        return put_field(room, fourth, figure, b'\n');
    }
    put_field(room, third, held, b'\n')
}

// Writes the text for a bad line into `room` from `at` on. Answers the place behind it.
pub fn put_bad(room: &mut [u8], at: usize) -> usize
    ensures { Put room.old at bad_text room.new result }
{
    let a = put(room, at, b'b');
    let b = put(room, a, b'a');
    let c = put(room, b, b'd');
    put(room, c, b'\n')
}
