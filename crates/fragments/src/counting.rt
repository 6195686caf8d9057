// Walks over the kept pieces of a collection.
ghost use Rattle.std.specs.Prelude.{◌≡◌, ◌++◌, ◌-◌, ◌≤◌, ◌<◌, length, replicate};
ghost use Rattle.lists.specs.Lists.{all, rising, insert};
ghost use Rattle.fragments.specs.Collection.{most_fragments, blank_piece, piece_before, numbered};
ghost use Rattle.fragments.specs.inner.Counting.{has_number, FrameCounted, ahead_of};

use crate::{MOST_FRAGMENTS, Piece};
use ikev2_numbers::{HEADER, MOST_OCTETS};

// Whether the number of `p` is one of 1 to `total`.
fn is_numbered(p: Piece, total: usize) -> bool
    ensures { result ≡ numbered total p }
{
    1 <= p.number && p.number <= total
}

// Whether each of the pieces has a number from 1 to `total`.
pub(crate) fn are_numbered(pieces: &[Piece], total: usize) -> bool
    ensures { result ≡ all (numbered total) pieces.now }
{
    pieces.iter().all(|p| is_numbered(*p, total))
}

// Whether the numbers of the pieces rise.
pub(crate) fn are_rising(pieces: &[Piece]) -> bool
    ensures { result ≡ rising piece_before pieces.now }
{
    pieces.is_sorted_by(|p, q| p.number < q.number)
}

// Whether one of the pieces has this `number`.
pub(crate) fn has_number(pieces: &[Piece], number: usize) -> bool
    ensures { result ≡ has_number number pieces.now }
{
    pieces.iter().any(|p| p.number == number)
}

// Counts the octets of the frame that the pieces make. Where they are too many, the answer is one more than a frame may have, since the
// sizes of a handed-in collection may be any.
pub(crate) fn frame_octets(pieces: &[Piece]) -> usize
    ensures { FrameCounted pieces.now result }
{
    let mut octets: usize = HEADER;
    for p in pieces {
        if MOST_OCTETS - octets < p.size {
            return MOST_OCTETS + 1;
        }
        octets += p.size;
    }
    octets
}

// Counts the pieces that stand ahead of a fragment with this `number`.
pub(crate) fn pieces_ahead(pieces: &[Piece], number: usize) -> usize
    ensures { (result ≡ ahead_of number pieces.now) × (result ≤ length pieces.now) }
{
    pieces.iter().take_while(|p| p.number <= number).count()
}

// Inserts the piece `a` in its place among the pieces.
pub(crate) fn with_piece(pieces: &[Piece], a: Piece) -> [Piece; MOST_FRAGMENTS]
    requires { length pieces.now < most_fragments }
    ensures { result ≡ insert piece_before a pieces.now
        ++ replicate (most_fragments - length (insert piece_before a pieces.now)) blank_piece }
{
    let n = pieces.len();
    let ahead = pieces_ahead(pieces, a.number);
    let mut out = [Piece { number: 0, size: 0 }; MOST_FRAGMENTS];
    out[..ahead].copy_from_slice(&pieces[..ahead]);
    out[ahead] = a;
    out[ahead + 1..n + 1].copy_from_slice(&pieces[ahead..]);
    out
}
