// One line of a journal, taken by a member: what its octets say is handed to the member's own calls, and no rule is judged a second time.
// Internal: crates of this repository alone call it.
ghost use Rattle.std.specs.Prelude.{◌≡◌, ◌+◌, ◌<◌, ◌≤◌, true, false, ◌&&◌, ◌∷◌, length, ◌==◌};
ghost use Rattle.text_rules.specs.Hex.{is_hex};
ghost use Rattle.journal_rules.specs.Line.{tick_octets, hands_in, handed_by, said_of, read_line};
ghost use Rattle.journal_rules.specs.inner.Longest.{longest_octets, longest_digits};
ghost use Rattle.journaling.specs.inner.LineTaking.{TakesLine};

use gikev2::Member;
use ikev2_numbers::{EXCHANGE_AT, GSA_REKEY, HEADER};
use octets::numbers::be32_at;

// Octets of a tick, and the octet that stands for leaving.
const TICK: usize = 4;

const LEAVING: usize = 255;

// A key length, the longest key that a length can count, a tick and the longest frame; and the digits of so many octets. A longer line
// holds a frame that is too long.
pub(crate) const LONGEST_OCTETS: usize = 16643;

pub(crate) const LONGEST_DIGITS: usize = 33286;

// Whether the octets `o` behind a key length `n` are a tick alone, with no key and no frame.
fn is_sweep(n: usize, o: &[u8]) -> bool
    ensures { result ≡ (n == 0 && length o.now == tick_octets) }
{
    (n == 0) & (o.len() == TICK)
}

// Whether the octets `o` behind a key length `n` hand in a frame: a key, a tick and at least a header, with the length 0 in a GSA_REKEY
// and in no other exchange.
fn hands_in(n: usize, o: &[u8]) -> bool
    requires { n < 256 }
    ensures { result ≡ hands_in n o.now }
{
    if o.len() < n + (TICK + HEADER) {
        return false;
    }
    if octets::wide(o[n + TICK + EXCHANGE_AT]) == GSA_REKEY {
        return n == 0;
    }
    n != 0
}

// Hands the frame in `o` to the member, with the key of `n` octets and the tick before it. Answers the next member, here and below: `None`
// where the line cannot be taken.
fn take_frame(member: Member, n: usize, o: &[u8]) -> Option<Member>
    requires { hands_in n o.now ≡ true }
    ensures { TakesLine member.state (handed_by n o.now) result }
{
    let behind = n + TICK;
    let tick = be32_at(o, n);
    let x = member.receive(&o[behind..], &o[0..n], tick);
    let answer = x.answer;
    if answer.number() != 0 {
        return None;
    }
    Some(x.member)
}

// Takes what the octet `n` says with the octets `o` behind it.
fn take_entry(member: Member, n: usize, o: &[u8]) -> Option<Member>
    requires { n < 256 }
    ensures { TakesLine member.state (said_of (n ∷ o.now)) result }
{
    if n == LEAVING {
        if o.len() != 0 {
            return None;
        }
        return Some(member.leave());
    }
    if is_sweep(n, o) {
        return Some(member.sweep(be32_at(o, 0)));
    }
    if hands_in(n, o) {
        return take_frame(member, n, o);
    }
    None
}

// Takes what octets say.
fn take_octets(member: Member, o: &[u8]) -> Option<Member>
    ensures { TakesLine member.state (said_of o.now) result }
{
    let (n, behind) = o.split_first()?;
    take_entry(member, octets::wide(*n), behind)
}

// Takes the line with this `text`, without its newline. Its octets go to the start of `room`.
pub(crate) fn take_line(member: Member, text: &[u8], room: &mut [u8]) -> Option<Member>
    requires { longest_octets ≤ length room.old }
    ensures { TakesLine member.state (read_line text.now) result }
{
    if LONGEST_DIGITS < text.len() {
        return None;
    }
    if !text_lines::is_hex(text) {
        return None;
    }
    let n = text_lines::put_octets(room, 0, text);
    take_octets(member, &room[..n])
}
