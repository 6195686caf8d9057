// A fragment opened: an IKE header and one Encrypted Fragment payload (RFC 7383, section 2.5).
ghost use Rattle.std.specs.Prelude.{◌≡◌, true, List, ℕ, ◌-◌, ◌≤◌, T, length, take};
ghost use Rattle.fips197.specs.Key.{is_key};
ghost use Rattle.state_keys.specs.Algorithms.{is_encryption_size};
ghost use Rattle.gcm.specs.Opening.{put_at_start};
ghost use Rattle.rfc5282.specs.Sizes.{salt_octets, fragment_body_at};
ghost use Rattle.rfc5282.specs.Keys.{aes_key_of, salt_of};
ghost use Rattle.rfc5282.specs.SealedFragment.{OpensFragment};
ghost use Rattle.rfc5282.specs.OuterFragment.{outer_fragment};
ghost use Rattle.sealing.specs.Pieces.{PieceOf, PieceJudged};
ghost use Rattle.sealing.specs.inner.Judging.{BodyJudged};

use crate::body::{is_alone, judge_body, make_nonce};
use gcm::stream::gctr_in;
use ikev2_numbers::MOST_OCTETS;
use octets::numbers::be16_at;
use rfc5282::{FRAGMENT, FRAGMENT_BODY_AT, FRAGMENT_NUMBER_AT, IV, SALT, TOTAL_FRAGMENTS_AT};
use state_keys::kinds::EncryptionKey;

// Whether `frame` is a header and one Encrypted Fragment payload with a number from 1 to its total, and nothing else.
pub fn is_fragment(frame: &[u8]) -> bool
    ensures { result ≡ outer_fragment frame.now }
{
    if !is_alone(frame, FRAGMENT as u8) {
        return false;
    }
    if frame.len() < FRAGMENT_BODY_AT {
        return false;
    }
    let number = be16_at(frame, FRAGMENT_NUMBER_AT);
    if number < 1 {
        return false;
    }
    number <= be16_at(frame, TOTAL_FRAGMENTS_AT)
}

// Counts the octets of the piece in `frame` under the octets of an encryption part.
fn count_piece(part: &[u8], frame: &[u8]) -> Option<usize>
    requires salt_octets_in_bounds { (salt_octets ≤ length part.now) × T (is_key (length part.now - salt_octets)) }
    requires frame_value { outer_fragment frame.now ≡ true }
    ensures { BodyJudged fragment_body_at part.now frame.now result }
{
    if frame.len() < FRAGMENT_BODY_AT + IV {
        return None;
    }
    let k = part.len() - SALT;
    let tables = aes::tables();
    let schedule = aes::expand(&tables, &part[0..k]);
    let nonce = make_nonce(part, frame, FRAGMENT_BODY_AT);
    judge_body(&tables, &schedule.words, &nonce, frame, FRAGMENT_BODY_AT)
}

// Judges `frame`, which `is_fragment`, under the encryption part of the live Rekey SA's keying octets, for a room of this many octets: the
// octets of its piece, or not. Nothing is written.
pub fn piece_length(key: EncryptionKey, frame: &[u8], room: usize) -> Option<usize>
    requires count_value { is_encryption_size key.count ≡ true }
    requires frame_value { outer_fragment frame.now ≡ true }
    ensures { (lent : List ℕ) → length lent ≡ room →
        PieceJudged (take key.count key.octets) frame.now lent result }
{
    if room < MOST_OCTETS {
        return None;
    }
    let o = key.octets;
    let n = key.count;
    count_piece(&o[0..n], frame)
}

// Writes the piece of `p` octets in `frame` under the octets of an encryption part.
fn write_under(part: &[u8], frame: &[u8], p: usize, out: &mut [u8])
    requires salt_octets_in_bounds { (salt_octets ≤ length part.now) × T (is_key (length part.now - salt_octets)) }
    requires piece_of { PieceOf part.now frame.now p }
    requires p_in_bounds { p ≤ length out.old }
    ensures { (piece : List ℕ) →
        OpensFragment (aes_key_of part.now) (salt_of part.now) frame.now piece →
        out.new ≡ put_at_start piece out.old }
{
    let k = part.len() - SALT;
    let tables = aes::tables();
    let schedule = aes::expand(&tables, &part[0..k]);
    let nonce = make_nonce(part, frame, FRAGMENT_BODY_AT);
    let text = FRAGMENT_BODY_AT + IV;
    let end = text + p;
    gctr_in(&tables, &schedule.words, &nonce, &frame[text..end], out);
}

// Writes the piece that `piece_length` counted at the start of `out`.
pub fn write_piece(key: EncryptionKey, frame: &[u8], p: usize, out: &mut [u8])
    requires count_value { is_encryption_size key.count ≡ true }
    requires piece_of { PieceOf (take key.count key.octets) frame.now p }
    requires p_in_bounds { p ≤ length out.old }
    ensures { (piece : List ℕ) →
        OpensFragment (aes_key_of (take key.count key.octets)) (salt_of (take key.count key.octets)) frame.now piece →
        out.new ≡ put_at_start piece out.old }
{
    let o = key.octets;
    let n = key.count;
    write_under(&o[0..n], frame, p, out);
}
