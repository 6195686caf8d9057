// Receives a fragment of a sealed frame (document 02, T-12).
ghost use Rattle.std.specs.Prelude.{◌≡◌, ◌≤◌, length};
ghost use Rattle.rfc5282.specs.Sizes.{fragment_body_at};
ghost use Rattle.fragments.specs.Collection.{Waiting, counted, collection_of};
ghost use Rattle.fragments.specs.Gathering.{gathered};
ghost use Rattle.rules_fragments.specs.FragmentOutcome.{names_in};
ghost use Rattle.gikev2.specs.ReceiveFragment.{ReceivesFragment};
ghost use Rattle.gikev2.specs.inner.Gathering.{refused_by, PassedOutside, PassedOpening, ToWrite, ToGather, ToComplete, ReceivedWhole};

use crate::Member;
use crate::call::Answer;
use crate::sealed::{is_not_for, sealing_key};
use check_admission::number3::number_3;
use fragments::{Collection, MOST_FRAGMENTS, Names, Placed};
use ikev2_numbers::{
    FLAGS_AT, GSA_REKEY, HEADER, MESSAGE_ID_AT, MOST_OCTETS, REKEY_SPI, VERSION_AT,
};
use octets::numbers::{be16_at, be32_at};
use rfc5282::{FRAGMENT_NUMBER_AT, TOTAL_FRAGMENTS_AT};
use sealing::fragment::{is_fragment, piece_length, write_piece};
use state_keys::kinds::EncryptionKey;

// What becomes of a fragment. Kept as one list and not a `Result`: a fragment that is passed over or waits is neither refused nor accepted.
#[derive(Clone, Copy, Debug, PartialEq, Eq)]
pub enum FragmentAnswer {
    // refused; member, room and collection are as they were
    Refused(Answer),
    // a fragment that is kept already, or one of a smaller total
    PassedOver,
    // the fragment is kept, and others lack
    Waiting,
    // the fragments make a frame, and this is the answer of `receive` to it
    Complete(Answer),
}

// The answer, the next member and the next collection.
#[derive(Clone, Copy)]
pub struct Gathered {
    pub answer: FragmentAnswer,
    pub member: Member,
    pub collection: Collection,
}

// Reads what a fragment says of itself.
fn names_in(frame: &[u8]) -> Names
    requires { fragment_body_at ≤ length frame.now }
    ensures { result ≡ names_in frame.now }
{
    let mut spis = [0u8; REKEY_SPI];
    octets::copying::copy(&frame[0..REKEY_SPI], &mut spis);
    Names {
        spis,
        id: be32_at(frame, MESSAGE_ID_AT),
        number: be16_at(frame, FRAGMENT_NUMBER_AT),
        total: be16_at(frame, TOTAL_FRAGMENTS_AT),
        version: frame[VERSION_AT],
        flags: frame[FLAGS_AT],
        next: frame[HEADER],
    }
}

// Puts the piece of `p` octets that `frame` opens to beside `n` others of `collection`.
fn gather_piece(
    collection: Collection,
    f: Names,
    key: EncryptionKey,
    frame: &[u8],
    p: usize,
    n: usize,
) -> Collection
    requires { ToWrite collection f key frame.now p n }
    ensures { (t : ToWrite collection f key frame.now p n) →
        result ≡ collection_of (gathered (counted collection) f t.of.piece) }
{
    let mut piece = [0u8; MOST_OCTETS];
    write_piece(key, frame, p, &mut piece);
    collection.gather(n, f, &piece[0..p])
}

impl Member {
    // Refuses a fragment with this `answer`. Member and collection stay as they were.
    fn refuse_fragment(self, answer: Answer, collection: Collection) -> Gathered
        ensures { result ≡ refused_by answer self collection }
    {
        Gathered {
            answer: FragmentAnswer::Refused(answer),
            member: self,
            collection,
        }
    }

    // Writes the whole frame that `gathered` makes to the start of `room`, and receives it. The collection is empty then.
    fn complete(self, gathered: Collection, room: &mut [u8], tick: u32) -> Gathered
        requires { (w : Waiting) × ToComplete w gathered room.old }
        ensures { (w : Waiting) → ToComplete w gathered room.old →
            ReceivedWhole self tick w room.old result room.new }
    {
        let n = gathered.write_whole(room);
        let x = self.receive(&room[0..n], b"", tick);
        Gathered {
            answer: FragmentAnswer::Complete(x.answer),
            member: x.member,
            collection: Collection::new(),
        }
    }

    // Keeps the piece of `p` octets that `frame` opens to, beside `n` others.
    fn keep_piece(
        self,
        collection: Collection,
        f: Names,
        key: EncryptionKey,
        frame: &[u8],
        p: usize,
        n: usize,
        room: &mut [u8],
        tick: u32,
    ) -> Gathered
        requires { ToGather self collection tick f key frame.now room.old p n }
        ensures { ReceivesFragment self collection tick frame.now room.old result.answer result.member
            result.collection
            room.new }
    {
        let gathered = gather_piece(collection, f, key, frame, p, n);
        if gathered.is_complete() {
            return self.complete(gathered, room, tick);
        }
        Gathered {
            answer: FragmentAnswer::Waiting,
            member: self,
            collection: gathered,
        }
    }

    // Judges a fragment that opens to a piece of `p` octets: number 3, number 7, passed over, number 7 again.
    fn judge_piece(
        self,
        collection: Collection,
        key: EncryptionKey,
        frame: &[u8],
        p: usize,
        room: &mut [u8],
        tick: u32,
    ) -> Gathered
        requires { PassedOpening self tick key frame.now room.old p }
        ensures { ReceivesFragment self collection tick frame.now room.old result.answer result.member
            result.collection
            room.new }
    {
        let f = names_in(frame);
        if number_3(self.state, GSA_REKEY, f.id) {
            return self.refuse_fragment(Answer::Replayed, collection);
        }
        if MOST_FRAGMENTS < f.total {
            return self.refuse_fragment(Answer::OverLimit, collection);
        }
        match collection.place(f, p) {
            Placed::Passed => Gathered {
                answer: FragmentAnswer::PassedOver,
                member: self,
                collection,
            },
            Placed::TooLong => self.refuse_fragment(Answer::OverLimit, collection),
            Placed::Taken(n) => self.keep_piece(collection, f, key, frame, p, n, room, tick),
        }
    }

    // Opens a fragment that number 1 and 2 let pass.
    fn open_fragment(
        self,
        collection: Collection,
        frame: &[u8],
        room: &mut [u8],
        tick: u32,
    ) -> Gathered
        requires { PassedOutside self tick frame.now }
        ensures { ReceivesFragment self collection tick frame.now room.old result.answer result.member
            result.collection
            room.new }
    {
        let key = sealing_key(self.state.table);
        match piece_length(key, frame, room.len()) {
            None => self.refuse_fragment(Answer::Unopened, collection),
            Some(p) => self.judge_piece(collection, key, frame, p, room, tick),
        }
    }

    // Receives the octets of a fragment as they came off the wire: an IKE header and one Encrypted Fragment payload of a GSA_REKEY.
    // `collection` is what the last such call handed back, at first `Collection::new()`. When the last fragment has come, the whole frame
    // stands at the start of `room`, which must have 16,384 octets, and is received as an opened frame; until then `room` is as lent.
    pub fn receive_fragment(
        self,
        collection: Collection,
        frame: &[u8],
        room: &mut [u8],
        tick: u32,
    ) -> Gathered
        ensures { ReceivesFragment self collection tick frame.now room.old result.answer result.member
            result.collection
            room.new }
    {
        if !is_fragment(frame) {
            return self.refuse_fragment(Answer::BrokenLayout(0), collection);
        }
        if is_not_for(self.state, frame, tick) {
            return self.refuse_fragment(Answer::NotForMember, collection);
        }
        self.open_fragment(collection, frame, room, tick)
    }
}
