// The algorithm table of document 01: the octets of keying material that a transform needs.
ghost use Rattle.std.specs.Prelude.{◌≡◌};
ghost use Rattle.state_keys.specs.Algorithms.{is_row_of, needed_by};

// Transform type 1, Encryption Algorithm.
pub const ENCRYPTION: u8 = 1;

// A row of the table: transform type, transform ID, key bits, octets needed.
#[derive(Clone, Copy)]
pub struct AlgorithmRow {
    pub kind: u8,
    pub id: u16,
    pub bits: u16,
    pub octets: usize,
}

// The table: AES-GCM-16 by its Key Length, with 4 octets of salt; KW_5649_128, _192 and _256.
const ROWS: [AlgorithmRow; 6] = [
    AlgorithmRow {
        kind: 1,
        id: 20,
        bits: 128,
        octets: 20,
    },
    AlgorithmRow {
        kind: 1,
        id: 20,
        bits: 192,
        octets: 28,
    },
    AlgorithmRow {
        kind: 1,
        id: 20,
        bits: 256,
        octets: 36,
    },
    AlgorithmRow {
        kind: 13,
        id: 1,
        bits: 128,
        octets: 16,
    },
    AlgorithmRow {
        kind: 13,
        id: 2,
        bits: 192,
        octets: 24,
    },
    AlgorithmRow {
        kind: 13,
        id: 3,
        bits: 256,
        octets: 32,
    },
];

// Whether `r` is the row of the transform with type `kind`, ID `id` and Key Length `bits`. The Key Length is read in type 1 alone.
fn is_row(r: AlgorithmRow, kind: u8, id: u16, bits: u16) -> bool
    ensures { result ≡ is_row_of kind id bits r }
{
    if r.kind != kind || r.id != id {
        return false;
    }
    kind != ENCRYPTION || r.bits == bits
}

// Looks up the octets that the transform with type `kind`, ID `id` and Key Length `bits` needs, if it is in the table. The Key Length is
// read in type 1 alone.
pub fn octets_needed(kind: u8, id: u16, bits: u16) -> Option<usize>
    ensures { result ≡ needed_by kind id bits }
{
    for r in ROWS {
        if is_row(r, kind, id, bits) {
            return Some(r.octets);
        }
    }
    None
}
