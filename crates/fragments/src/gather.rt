// A fragment put to a collection.
ghost use Rattle.std.specs.Prelude.{◌≡◌, ◌+◌, ◌≤◌, length};
ghost use Rattle.fragments.specs.Collection.{most_fragments, collection_of, counted};
ghost use Rattle.fragments.specs.Gathering.{lead_with, gathered};
ghost use Rattle.fragments.specs.inner.Joining.{joined_octets, led_by, lead_in};
ghost use Rattle.fragments.specs.inner.Places.{Taking};

use crate::counting::{frame_octets, has_number, pieces_ahead, with_piece};
use crate::{Collection, Names, Piece};
use ikev2_numbers::{HEADER, MOST_OCTETS};

// Copies the first `size` of `octets` to `out`, with `piece` behind the first `before` of them.
fn join(octets: &[u8], size: usize, before: usize, piece: &[u8], out: &mut [u8])
    requires before_le_size { (before ≤ size) × (size ≤ length octets.now) }
    requires piece_in_bounds { size + length piece.now ≤ length out.old }
    ensures { out.new ≡ joined_octets octets.now size before piece.now out.old }
{
    let end = before + piece.len();
    octets::copying::copy(&octets[0..before], out);
    octets::copying::copy(piece, &mut out[before..]);
    octets::copying::copy(&octets[before..size], &mut out[end..]);
}

impl Collection {
    // Gives the names of a fragment the version, flags and next payload of fragment 1, be it this one or among the first `n` pieces; 0
    // where it is missing.
    fn lead(self, n: usize, f: Names) -> Names
        requires { n ≤ most_fragments }
        ensures { result ≡ led_by (lead_with (lead_in self n) f) f }
    {
        if f.number == 1 {
            return f;
        }
        if has_number(&self.pieces[..n], 1) {
            Names {
                version: self.version,
                flags: self.flags,
                next: self.next,
                ..f
            }
        } else {
            Names {
                version: 0,
                flags: 0,
                next: 0,
                ..f
            }
        }
    }

    // Puts a fragment with this `piece` to the first `n` pieces, as `place` told.
    pub fn gather(self, n: usize, f: Names, piece: &[u8]) -> Collection
        requires le_total { 1 ≤ f.total }
        requires taking { Taking (counted self) f piece.now n }
        ensures { result ≡ collection_of (gathered (counted self) f piece.now) }
    {
        let kept = &self.pieces[..n];
        let ahead = pieces_ahead(kept, f.number);
        let before = frame_octets(&kept[..ahead]) - HEADER;
        let size = frame_octets(kept) - HEADER;
        let a = Piece {
            number: f.number,
            size: piece.len(),
        };
        let pieces = with_piece(kept, a);
        let named = self.lead(n, f);
        let spis = f.spis;
        let mut next = Collection {
            spis,
            id: f.id,
            total: f.total,
            count: n + 1,
            pieces,
            version: named.version,
            flags: named.flags,
            next: named.next,
            octets: [0u8; MOST_OCTETS],
        };
        join(&self.octets, size, before, piece, &mut next.octets);
        next
    }
}
