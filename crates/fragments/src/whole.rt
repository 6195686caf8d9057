// The whole frame of a collection that lacks nothing.
ghost use Rattle.std.specs.Prelude.{◌≡◌, [], ◌∷◌, ◌++◌, ◌-◌, ◌≤◌, length, take, drop};
ghost use Rattle.octets.specs.Numbers.{octets_of};
ghost use Rattle.ikev2_numbers.specs.Codes.{gsa_rekey, header_octets, most_octets};
ghost use Rattle.fragments.specs.Collection.{Waiting, collection_of};
ghost use Rattle.fragments.specs.Gathering.{is_complete};
ghost use Rattle.fragments.specs.inner.Writing.{Holding, WholeWritten};

use crate::Collection;
use crate::counting::frame_octets;
use ikev2_numbers::{
    EXCHANGE_AT, FIRST_PAYLOAD_AT, GSA_REKEY, HEADER, LENGTH_AT, MESSAGE_ID_AT, VERSION_AT,
};
use octets::registers::octets_of;

// Puts a frame of `size` octets at the start of `room`: the header `h`, and as many of `octets` behind it as it lacks.
fn put_frame(h: &[u8], octets: &[u8], size: usize, room: &mut [u8])
    requires h_len { (length h.now ≡ header_octets) × (header_octets ≤ size) }
    requires size_in_bounds { (size ≤ length room.old) × (size - header_octets ≤ length octets.now) }
    ensures { room.new
        ≡ h.now ++ (take (size - header_octets) octets.now ++ drop size room.old) }
{
    let end = size - HEADER;
    octets::copying::copy(h, room);
    octets::copying::copy(&octets[0..end], &mut room[HEADER..]);
}

impl Collection {
    // Whether nothing lacks.
    pub fn is_complete(self) -> bool
        ensures { (w : Waiting) → self ≡ collection_of w → result ≡ is_complete w }
    {
        self.count == self.total
    }

    // Makes the header of the whole frame, which has `size` octets.
    fn make_header(self, size: usize) -> [u8; HEADER]
        requires { size ≤ most_octets }
        ensures { result ≡ self.spis ++ ((self.next ∷ self.version ∷ gsa_rekey ∷ self.flags ∷ [])
            ++ (octets_of 4 self.id ++ octets_of 4 size)) }
    {
        let s = self.spis;
        let i = octets_of(self.id as u64);
        let z = octets_of(size as u64);
        [
            s[0],
            s[1],
            s[2],
            s[3],
            s[4],
            s[5],
            s[6],
            s[7],
            s[8],
            s[9],
            s[10],
            s[11],
            s[12],
            s[13],
            s[14],
            s[15],
            self.next,
            self.version,
            GSA_REKEY as u8,
            self.flags,
            i[4],
            i[5],
            i[6],
            i[7],
            z[4],
            z[5],
            z[6],
            z[7],
        ]
    }

    // Writes the whole frame at the start of `room`, and counts its octets.
    pub fn write_whole(self, room: &mut [u8]) -> usize
        requires holding { (w : Waiting) × Holding self w }
        requires most_octets_in_bounds { most_octets ≤ length room.old }
        ensures { (w : Waiting) → self ≡ collection_of w → WholeWritten w room.old result room.new }
    {
        let size = frame_octets(&self.pieces[..self.count]);
        let h = self.make_header(size);
        put_frame(&h, &self.octets, size, room);
        size
    }
}
