// Delete payloads (RFC 7296, section 3.11) of a frame whose layout is whole.
ghost use Rattle.std.specs.Prelude.{◌≡◌, true, [], ◌+◌, ◌<◌, length, get_or};
ghost use Rattle.wire_frames.specs.Delete.{delete_of, delete_fits};
ghost use Rattle.check_payloads.specs.inner.Deletion.{DeleteIs, with_one, deletes_with};

use ikev2_numbers::{DELETE, DELETE_COUNT_AT, DELETE_HEAD, ESP};

// The fields of a Delete payload's body: its protocol, the size of each SPI in octets, the number of SPIs.
#[derive(Clone, Copy)]
pub struct DeleteParts {
    pub protocol: usize,
    pub size: usize,
    pub count: usize,
}

// Reads the fields of a Delete payload's body `o`.
pub fn delete_parts(o: &[u8]) -> DeleteParts
    requires { delete_fits o.now ≡ true }
    ensures { DeleteIs o.now result }
{
    DeleteParts {
        protocol: octets::wide(o[0]),
        size: octets::wide(o[1]),
        count: octets::numbers::be16_at(o, DELETE_COUNT_AT),
    }
}

// Answers the octets of the SPI at place `i`, counted from 0, in a Delete payload's body `o`.
pub fn spi_at(o: &[u8], i: usize) -> &[u8]
    requires { (delete_fits o.now ≡ true) × (i < length (delete_of o.now).spis) }
    ensures { result.now ≡ get_or (delete_of o.now).spis i [] }
{
    let size = octets::wide(o[1]);
    let a = DELETE_HEAD + size * i;
    let e = a + size;
    &o[a..e]
}

// The facts of a frame's Delete payloads: one is of another protocol than ESP (`other`), one has no SPI (`none`), and how many SPIs they
// have together (`spis`).
#[derive(Clone, Copy)]
pub struct Deletes {
    pub other: bool,
    pub none: bool,
    pub spis: usize,
}

// Adds a Delete payload with body `o` to the facts `d`.
fn with_one(d: Deletes, o: &[u8]) -> Deletes
    requires { (delete_fits o.now ≡ true) × (d.spis < 4294967296) }
    ensures { (result ≡ with_one d (delete_of o.now)) × (result.spis < d.spis + 65536) }
{
    let x = delete_parts(o);
    Deletes {
        other: d.other | (x.protocol != ESP),
        none: d.none | (x.count == 0),
        spis: d.spis + x.count,
    }
}

// Adds a payload of type `kind` with body `o` to the facts `d`. Only a Delete payload changes them.
pub fn with_payload(d: Deletes, kind: usize, o: &[u8]) -> Deletes
    requires { (kind ≡ 42 → delete_fits o.now ≡ true) × (d.spis < 4294967296) }
    ensures { (result ≡ deletes_with d kind o.now) × (result.spis < d.spis + 65536) }
{
    if kind == DELETE {
        return with_one(d, o);
    }
    d
}
