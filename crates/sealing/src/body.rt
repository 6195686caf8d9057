// The body of a sealed payload, wherever it begins: the frame around it, its nonce, its tag and its padding.
ghost use Rattle.std.specs.Prelude.{◌≡◌, List, ℕ, ◌+◌, ◌≤◌, length};
ghost use Rattle.aes.specs.inner.Tables.{encipher_tables};
ghost use Rattle.aes.specs.inner.Schedule.{Expands, Expanded};
ghost use Rattle.ikev2_numbers.specs.Codes.{most_octets};
ghost use Rattle.sp800_38d.specs.Encryption.{nonce_octets};
ghost use Rattle.rfc5282.specs.Sizes.{salt_octets, iv_octets};
ghost use Rattle.rfc5282.specs.Keys.{aes_key_of, nonce_for};
ghost use Rattle.rfc5282.specs.Outer.{alone};
ghost use Rattle.sealing.specs.inner.Judging.{BodyBounds, BodyJudged};

use aes::{SCHEDULE_WORDS, TABLE_WORDS};
use gcm::stream::gctr_at;
use gcm::verify_tag;
use ikev2_numbers::{
    FIRST_PAYLOAD_AT, HEADER, LENGTH_AT, MAJOR_VERSION, MINOR_VERSIONS, MOST_OCTETS,
    STRUCTURE_LENGTH_AT, VERSION_AT,
};
use octets::numbers::{be16_at, be32_at};
use octets::wide;
use rfc5282::{ENCRYPTED_BODY_AT, IV, SALT, TAG};

// Whether `frame` is a header and one payload of this type, and nothing else.
pub(crate) fn is_alone(frame: &[u8], payload: u8) -> bool
    ensures { result ≡ alone payload frame.now }
{
    let n = frame.len();
    if n < ENCRYPTED_BODY_AT {
        return false;
    }
    if MOST_OCTETS < n {
        return false;
    }
    if be32_at(frame, LENGTH_AT) as usize != n {
        return false;
    }
    if wide(frame[VERSION_AT]) / MINOR_VERSIONS != MAJOR_VERSION {
        return false;
    }
    if frame[FIRST_PAYLOAD_AT] != payload {
        return false;
    }
    HEADER + be16_at(frame, HEADER + STRUCTURE_LENGTH_AT) == n
}

// Makes the nonce: the salt, which ends `part`, and the IV, which begins the payload's body.
pub(crate) fn make_nonce(part: &[u8], frame: &[u8], at: usize) -> [u8; 12]
    requires { (salt_octets ≤ length part.now) × (at + iv_octets ≤ length frame.now) }
    ensures { result ≡ nonce_for at part.now frame.now }
{
    let mut nonce = [0u8; 12];
    let k = part.len() - SALT;
    let end = at + IV;
    octets::copying::copy(&part[k..], &mut nonce);
    octets::copying::copy(&frame[at..end], &mut nonce[SALT..]);
    nonce
}

// Counts the octets of payloads in the body at `at`. The tag is judged before anything is deciphered, and the pad length from the last
// block alone.
pub(crate) fn judge_body(
    tables: &[u32; TABLE_WORDS],
    schedule: &[u32; SCHEDULE_WORDS],
    nonce: &[u8],
    frame: &[u8],
    at: usize,
) -> Option<usize>
    requires tables_value { (tables.now ≡ encipher_tables) × Expanded schedule.now }
    requires nonce_len { (length nonce.now ≡ nonce_octets) × (at ≤ length frame.now) × (length frame.now ≤ most_octets) }
    ensures { BodyBounds at frame.now result × ((part : List ℕ) →
        nonce.now ≡ nonce_for at part frame.now →
        Expands (aes_key_of part) schedule.now → BodyJudged at part frame.now result) }
{
    let n = frame.len();
    let text = at + IV;
    let least = text + 1 + TAG;
    if n < least {
        return None;
    }
    if !verify_tag(tables, schedule, nonce, &frame[0..at], &frame[text..n]) {
        return None;
    }
    let before = n - least;
    let end = n - TAG;
    let pad = wide(gctr_at(tables, schedule, nonce, &frame[text..end], before));
    before.checked_sub(pad)
}
