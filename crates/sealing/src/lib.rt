// The sealed frame opened: an IKE header and one Encrypted payload, AES-GCM with a tag of 16 octets (RFC 7296, section 3.14; RFC 5282), or
// one Encrypted Fragment payload (RFC 7383). Internal: crates of this repository alone call it.
#![tactic(auto)]

mod body;
pub mod fragment;
mod writing;

ghost use Rattle.std.specs.Prelude.{◌≡◌, true, List, ℕ, ◌-◌, ◌≤◌, T, length, take};
ghost use Rattle.fips197.specs.Key.{is_key};
ghost use Rattle.aes.specs.inner.Tables.{encipher_tables};
ghost use Rattle.aes.specs.inner.Schedule.{Expands, Expanded};
ghost use Rattle.state_keys.specs.Algorithms.{is_encryption_size};
ghost use Rattle.sp800_38d.specs.Encryption.{nonce_octets};
ghost use Rattle.rfc5282.specs.Sizes.{salt_octets, encrypted_body_at};
ghost use Rattle.rfc5282.specs.Keys.{aes_key_of, nonce_for};
ghost use Rattle.rfc5282.specs.Outer.{outer};
ghost use Rattle.sealing.specs.Unsealing.{UnsealsInto};

use aes::{SCHEDULE_WORDS, TABLE_WORDS};
use body::{is_alone, judge_body, make_nonce};
use ikev2_numbers::{HEADER, MOST_OCTETS};
use rfc5282::{CIPHERTEXT_AT, ENCRYPTED, ENCRYPTED_BODY_AT, SALT};
use state_keys::kinds::EncryptionKey;
use writing::write_opened;

// Whether `frame` is a header and one Encrypted payload, and nothing else.
pub fn is_outer(frame: &[u8]) -> bool
    ensures { result ≡ outer frame.now }
{
    is_alone(frame, ENCRYPTED as u8)
}

// Opens `frame` over an expanded key. `room` is written last. Answers how many octets the opened frame has, or `None` where `frame` does not
// open.
fn open_under(
    tables: &[u32; TABLE_WORDS],
    schedule: &[u32; SCHEDULE_WORDS],
    nonce: &[u8],
    frame: &[u8],
    room: &mut [u8],
) -> Option<usize>
    requires tables_value { (tables.now ≡ encipher_tables) × Expanded schedule.now }
    requires nonce_len { (length nonce.now ≡ nonce_octets) × (outer frame.now ≡ true) }
    ensures { (part : List ℕ) → nonce.now ≡ nonce_for encrypted_body_at part frame.now →
        Expands (aes_key_of part) schedule.now →
        UnsealsInto part frame.now room.old result room.new }
{
    if room.len() < MOST_OCTETS {
        return None;
    }
    let p = judge_body(tables, schedule, nonce, frame, ENCRYPTED_BODY_AT)?;
    write_opened(tables, schedule, nonce, frame, p, room);
    Some(HEADER + p)
}

// Opens `frame` under the octets of an encryption part.
fn open_part(part: &[u8], frame: &[u8], room: &mut [u8]) -> Option<usize>
    requires salt_octets_in_bounds { (salt_octets ≤ length part.now) × T (is_key (length part.now - salt_octets)) }
    requires frame_value { outer frame.now ≡ true }
    ensures { UnsealsInto part.now frame.now room.old result room.new }
{
    if frame.len() < CIPHERTEXT_AT {
        return None;
    }
    let k = part.len() - SALT;
    let tables = aes::tables();
    let schedule = aes::expand(&tables, &part[0..k]);
    let nonce = make_nonce(part, frame, ENCRYPTED_BODY_AT);
    open_under(&tables, &schedule.words, &nonce, frame, room)
}

// Opens `frame`, which `is_outer`, as `open_under` does, under the encryption part of the live Rekey SA's keying octets, at the start of `room`.
pub fn open_frame(key: EncryptionKey, frame: &[u8], room: &mut [u8]) -> Option<usize>
    requires count_value { is_encryption_size key.count ≡ true }
    requires frame_value { outer frame.now ≡ true }
    ensures { UnsealsInto (take key.count key.octets) frame.now room.old result room.new }
{
    let o = key.octets;
    let n = key.count;
    open_part(&o[0..n], frame, room)
}
