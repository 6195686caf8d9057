// Writes the opened frame.
ghost use Rattle.std.specs.Prelude.{◌≡◌, List, ℕ, ◌+◌, ◌≤◌, ◌<◌, length};
ghost use Rattle.octets.specs.Numbers.{oct};
ghost use Rattle.ikev2_numbers.specs.Codes.{header_octets, most_octets};
ghost use Rattle.aes.specs.inner.Tables.{encipher_tables};
ghost use Rattle.aes.specs.inner.Schedule.{Expands, Expanded};
ghost use Rattle.sp800_38d.specs.Encryption.{nonce_octets};
ghost use Rattle.gcm.specs.Opening.{put_at_start};
ghost use Rattle.rfc5282.specs.Sizes.{encrypted_body_at, ciphertext_at};
ghost use Rattle.rfc5282.specs.Keys.{aes_key_of, nonce_for};
ghost use Rattle.rfc5282.specs.SealedFrame.{header_with};
ghost use Rattle.rfc5282.specs.inner.Opened.{opened_of};

use aes::{SCHEDULE_WORDS, TABLE_WORDS};
use gcm::stream::gctr_in;
use ikev2_numbers::{FIRST_PAYLOAD_AT, HEADER, LENGTH_AT};
use rfc5282::CIPHERTEXT_AT;

// Makes the opened frame's header: next payload and length set anew.
fn make_header(frame: &[u8], size: usize) -> [u8; 28]
    requires { (encrypted_body_at ≤ length frame.now) × (size < 65536) }
    ensures { result ≡ header_with (oct frame.now header_octets) size frame.now }
{
    let mut h = [0u8; 28];
    octets::copying::copy(&frame[0..HEADER], &mut h);
    h[FIRST_PAYLOAD_AT] = frame[HEADER];
    h[LENGTH_AT..].copy_from_slice(&(size as u32).to_be_bytes());
    h
}

// Writes the opened frame with `p` octets of payloads at the start of `room`.
pub(crate) fn write_opened(
    tables: &[u32; TABLE_WORDS],
    schedule: &[u32; SCHEDULE_WORDS],
    nonce: &[u8],
    frame: &[u8],
    p: usize,
    room: &mut [u8],
)
    requires tables_value { (tables.now ≡ encipher_tables) × Expanded schedule.now }
    requires nonce_len { (length nonce.now ≡ nonce_octets) × (ciphertext_at + p ≤ length frame.now)
        × (length frame.now ≤ most_octets) × (header_octets + p ≤ length room.old) }
    ensures { (part : List ℕ) → nonce.now ≡ nonce_for encrypted_body_at part frame.now →
        Expands (aes_key_of part) schedule.now →
        room.new ≡ put_at_start (opened_of part frame.now p) room.old }
{
    let h = make_header(frame, HEADER + p);
    octets::copying::copy(&h, room);
    let end = CIPHERTEXT_AT + p;
    gctr_in(
        tables,
        schedule,
        nonce,
        &frame[CIPHERTEXT_AT..end],
        &mut room[HEADER..],
    );
}
