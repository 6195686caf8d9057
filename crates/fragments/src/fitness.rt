// Whether a collection that was handed in keeps the rules: otherwise it counts as empty.
ghost use Rattle.std.specs.Prelude.{◌≡◌, ◌&&◌, ◌||◌, not, ◌+◌, ◌/◌, leb, eqb};
ghost use Rattle.ikev2_numbers.specs.Codes.{header_octets, major_version, minor_versions, most_octets};
ghost use Rattle.lists.specs.Lists.{all, rising};
ghost use Rattle.fragments.specs.Collection.{piece_before, numbered, size_of_all, has_first, fit};

use crate::counting::{are_numbered, are_rising, frame_octets, has_number};
use crate::{Collection, MOST_FRAGMENTS, Piece};
use ikev2_numbers::{MAJOR_VERSION, MINOR_VERSIONS, MOST_OCTETS};

// Whether the version octet is one that refusal 1 lets pass, where fragment 1 is among the pieces.
fn is_led(pieces: &[Piece], version: u8) -> bool
    ensures { result ≡ (not (has_first pieces.now) || eqb (version / minor_versions) major_version) }
{
    !has_number(pieces, 1) || octets::wide(version) / MINOR_VERSIONS == MAJOR_VERSION
}

// Whether the pieces are as the rules say.
fn are_pieces_fit(pieces: &[Piece], total: usize, version: u8) -> bool
    ensures { result ≡ (all (numbered total) pieces.now && (rising piece_before pieces.now
        && (leb (header_octets + size_of_all pieces.now) most_octets
        && (not (has_first pieces.now) || eqb (version / minor_versions) major_version)))) }
{
    are_numbered(pieces, total)
        && are_rising(pieces)
        && frame_octets(pieces) <= MOST_OCTETS
        && is_led(pieces, version)
}

impl Collection {
    // Whether this collection keeps the rules and lacks something.
    #[tactic(auto, unfolding(crate::specs::Collection::fit))]
    pub fn is_fit(self) -> bool
        ensures { result ≡ fit self }
    {
        let total = self.total;
        let n = self.count;
        2 <= total
            && total <= MOST_FRAGMENTS
            && 1 <= n
            && n < total
            && are_pieces_fit(&self.pieces[..n], total, self.version)
    }
}
