// Collects what a frame says of the member afterwards, out of its facts.
ghost use Rattle.std.specs.Prelude.{◌≡◌, ◌≤◌, length};
ghost use Rattle.octets.specs.Walk.{be32};
ghost use Rattle.ikev2_numbers.specs.Codes.{header_octets, message_id_at};
ghost use Rattle.receive.specs.inner.Saying.{said_by};

use apply::next::Said;
use apply::retiring::DeletesAt;
use check_judging::facts::Facts;
use ikev2_numbers::{MESSAGE_ID_AT, PAYLOAD_HEADER};
use wire_frames::exchanges::Exchange;

// Collects what the frame `s` says of the member afterwards. `row` is the row of its exchange, and `x` are its facts.
pub fn said(row: Exchange, s: &[u8], x: Facts) -> Said
    requires { header_octets ≤ length s.now }
    ensures { result ≡ said_by row (be32 s.now message_id_at) x }
{
    let b = x.payloads;
    let p = x.policies;
    let id = octets::numbers::be32_at(s, MESSAGE_ID_AT);
    let start = b.delete.start.saturating_sub(PAYLOAD_HEADER);
    Said {
        delay: p.delay,
        rekey: 0 < p.rekeys,
        initial: p.initial,
        least: row.least,
        id,
        deletes: DeletesAt {
            count: b.deletes,
            start,
        },
    }
}
