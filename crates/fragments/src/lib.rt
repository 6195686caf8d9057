// The fragments of one rekey that have come so far (document 02, T-12; RFC 7383).
// Internal, but for `Collection::new`: crates of this repository alone call it.
#![tactic(auto)]

mod counting;
pub mod fitness;
pub mod gather;
pub mod placing;
pub mod whole;

ghost use Rattle.std.specs.Prelude.{◌≡◌};
ghost use Rattle.fragments.specs.Collection.{empty_collection};

use ikev2_numbers::{MOST_OCTETS, REKEY_SPI};

// "Collect up to 32 fragments of one Rekey SA and Message ID"
pub const MOST_FRAGMENTS: usize = 32;

// One kept piece: the fragment's number, and how many octets were sealed in it.
#[derive(Clone, Copy)]
pub struct Piece {
    pub number: usize,
    pub size: usize,
}

// A collection: a value that the caller keeps beside the member and hands in with the next fragment. Pieces stand in rising order of their
// numbers, their octets one behind the other. `version`, `flags` and `next` are those of fragment 1, and 0 while it is missing.
// Kept as arrays with a count beside them: the value has a fixed size, since there is no heap. Walks take the pieces that count as a slice.
#[derive(Clone, Copy)]
pub struct Collection {
    pub spis: [u8; REKEY_SPI],
    pub id: u32,
    pub total: usize,
    pub count: usize,
    pub pieces: [Piece; MOST_FRAGMENTS],
    pub version: u8,
    pub flags: u8,
    pub next: u8,
    pub octets: [u8; MOST_OCTETS],
}

// What becomes of a fragment by its names: the collection starts anew with it, it is passed over, or it is kept beside the others.
#[derive(Clone, Copy)]
pub enum Case {
    Anew,
    PassedOver,
    Kept,
}

// What becomes of a fragment by its names and by how many octets were sealed in it: it is passed over, the frame would have too many
// octets, or it is put to so many of the kept pieces: to none, where the collection starts anew.
// Kept as an enum: none of the three is a value beside a fault, so `Result<Option<usize>, _>` would hide two of the names.
#[derive(Clone, Copy)]
pub enum Placed {
    Passed,
    TooLong,
    Taken(usize),
}

// What is known of a fragment without its key.
#[derive(Clone, Copy)]
pub struct Names {
    pub spis: [u8; REKEY_SPI],
    pub id: u32,
    pub number: usize,
    pub total: usize,
    pub version: u8,
    pub flags: u8,
    pub next: u8,
}

impl Collection {
    // Makes the empty collection.
    pub fn new() -> Collection
        ensures { result ≡ empty_collection }
    {
        Collection {
            spis: [0u8; REKEY_SPI],
            id: 0,
            total: 0,
            count: 0,
            pieces: [Piece { number: 0, size: 0 }; MOST_FRAGMENTS],
            version: 0,
            flags: 0,
            next: 0,
            octets: [0u8; MOST_OCTETS],
        }
    }
}
