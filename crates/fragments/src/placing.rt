// What becomes of a fragment: its case, and whether the frame would have too many octets. No octet of a piece is looked at.
ghost use Rattle.std.specs.Prelude.{◌≡◌, cond, ◌&&◌, List, ℕ, ◌+◌, ◌≤◌, ltb, eqb, length};
ghost use Rattle.ikev2_numbers.specs.Codes.{most_octets};
ghost use Rattle.octets.specs.Compare.{same as sameRuns};
ghost use Rattle.fragments.specs.declared.Placed.TheVariants.{TooLong, Taken};
ghost use Rattle.fragments.specs.Collection.{counted};
ghost use Rattle.fragments.specs.Gathering.{case_of};
ghost use Rattle.fragments.specs.inner.Places.{case_within, PlaceSays};

use crate::counting::{frame_octets, has_number};
use crate::{Case, Collection, Names, Piece, Placed};
use ikev2_numbers::{HEADER, MOST_OCTETS};
use octets::compare::same;

// Tells the case of a fragment of the same rekey, which has this `number` and `total`: the collection has the total `own` and these pieces.
fn case_within(pieces: &[Piece], own: usize, number: usize, total: usize) -> Case
    ensures { result ≡ case_within pieces.now own number total }
{
    if own < total {
        return Case::Anew;
    }
    if total < own || has_number(pieces, number) {
        return Case::PassedOver;
    }
    Case::Kept
}

// Tells whether a frame of `octets` octets so far may have `size` more: then the fragment is put to `n` pieces.
fn by_size(octets: usize, size: usize, n: usize) -> Placed
    requires { octets ≤ most_octets }
    ensures { result ≡ cond (ltb most_octets (octets + size)) TooLong (Taken n) }
{
    if MOST_OCTETS - octets < size {
        return Placed::TooLong;
    }
    Placed::Taken(n)
}

impl Collection {
    // Whether the fragment is one of the Rekey SA and the Message ID that this collection is of.
    fn is_of_rekey(self, f: Names) -> bool
        ensures { result ≡ (sameRuns self.spis f.spis && eqb self.id f.id) }
    {
        same(&self.spis, &f.spis) && self.id == f.id
    }

    // Tells the fragment's case by its names.
    pub fn case(self, f: Names) -> Case
        requires { 1 ≤ f.total }
        ensures { result ≡ case_of (counted self) f }
    {
        if self.is_fit() && self.is_of_rekey(f) {
            return case_within(&self.pieces[..self.count], self.total, f.number, f.total);
        }
        Case::Anew
    }

    // Tells what becomes of a fragment whose piece has `size` octets.
    pub fn place(self, f: Names, size: usize) -> Placed
        requires { 1 ≤ f.total }
        ensures { (piece : List ℕ) → length piece ≡ size → PlaceSays (counted self) f piece result }
    {
        let case = self.case(f);
        match case {
            Case::Anew => by_size(HEADER, size, 0),
            Case::PassedOver => Placed::Passed,
            Case::Kept => {
                let octets = frame_octets(&self.pieces[..self.count]);
                by_size(octets, size, self.count)
            }
        }
    }
}
