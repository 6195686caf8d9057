// Receives a sealed frame (document 02, T-05).
ghost use Rattle.std.specs.Prelude.{◌≡◌, true, false, ◌≤◌, length};
ghost use Rattle.state_keys.specs.Limits.{limits};
ghost use Rattle.lists.specs.Lists.{any};
ghost use Rattle.wire_frames.specs.Header.{header_of};
ghost use Rattle.state_sa.specs.Entry.{live_rekey};
ghost use Rattle.state_table.specs.Table.{sas_of, table_formed};
ghost use Rattle.rules_refusals.specs.Refusals.{applies};
ghost use Rattle.rfc5282.specs.Sizes.{encrypted_body_at};
ghost use Rattle.rfc5282.specs.Outer.{outer};
ghost use Rattle.rules_sealed.specs.SealedOutcome.{sealed_number2};
ghost use Rattle.gikev2.specs.ReceiveSealed.{ReceivesSealed};
ghost use Rattle.gikev2.specs.inner.Sealing.{IsSealingKey};

use crate::Member;
use crate::call::{Answer, Received};
use check_admission::number2::number_2;
use ikev2_numbers::{EXCHANGE_AT, GSA_REKEY, REKEY_SPI};
use octets::wide;
use state::State;
use state_keys::kinds::EncryptionKey;
use state_table::Table;

// Whether number 2 applies to the sealed `frame`: it is no GSA_REKEY, or number 2 of an opened frame applies to its header.
pub(crate) fn is_not_for(state: State, frame: &[u8], tick: u32) -> bool
    requires { encrypted_body_at ≤ length frame.now }
    ensures { result ≡ applies (sealed_number2 limits state tick (header_of frame.now)) }
{
    let exchange = wide(frame[EXCHANGE_AT]);
    if exchange != GSA_REKEY {
        return true;
    }
    number_2(state, exchange, &frame[0..REKEY_SPI], tick)
}

// Answers the encryption part of the live Rekey SA of the table `t`. The table must have such an SA.
pub(crate) fn sealing_key(t: Table) -> EncryptionKey
    requires { (table_formed limits t ≡ true) × (any live_rekey (sas_of t) ≡ true) }
    ensures { IsSealingKey t result }
{
    let s = t.live_rekey().unwrap();
    s.rekey_key().encryption_part().unwrap()
}

impl Member {
    // Opens a sealed `frame` that outer 1 and 2 let pass, and receives what was opened.
    fn open_sealed(self, frame: &[u8], room: &mut [u8], tick: u32) -> Received
        requires { (outer frame.now ≡ true) × (applies (sealed_number2 limits self.state tick (header_of frame.now)) ≡ false) }
        ensures { ReceivesSealed self tick frame.now room.old result.answer result.member room.new }
    {
        let key = sealing_key(self.state.table);
        match sealing::open_frame(key, frame, room) {
            None => self.refuse(Answer::Unopened),
            Some(n) => self.receive(&room[0..n], b"", tick),
        }
    }

    // Receives the octets of a sealed `frame` as they came off the wire: an IKE header and one Encrypted payload of a GSA_REKEY. What is
    // opened stands at the start of `room`, which must have 16,384 octets, and is then received as an opened frame. Where nothing is opened
    // `room` is as lent.
    pub fn receive_sealed(self, frame: &[u8], room: &mut [u8], tick: u32) -> Received
        ensures { ReceivesSealed self tick frame.now room.old result.answer result.member room.new }
    {
        if !sealing::is_outer(frame) {
            return self.refuse(Answer::BrokenLayout(0));
        }
        if is_not_for(self.state, frame, tick) {
            return self.refuse(Answer::NotForMember);
        }
        self.open_sealed(frame, room, tick)
    }
}
