// Counts of transforms: of one transform, of several, and whether they fit a policy.
ghost use Rattle.std.specs.Prelude.{◌≡◌, true, ◌&&◌, ◌||◌, [], ◌∷◌, ℕ, ◌<◌, length, eqb};
ghost use Rattle.wire_attributes.specs.Place.{in_transform};
ghost use Rattle.wire_attributes.specs.Layout.{attributes};
ghost use Rattle.wire_readers.specs.inner.Values.{is_whole};
ghost use Rattle.check_suites.specs.inner.Suites.{suite_of, fit_by};
ghost use Rattle.check_suites.specs.inner.Octets.{transform_in};
ghost use Rattle.check_suites.specs.inner.Adding.{plus, SuiteAtMost};

use ikev2_numbers::{
    DIGITAL_SIGNATURE, ESP, GCAUTH, GIKE_UPDATE, IMPLICIT, SEQUENTIAL, SN, UNSPECIFIED,
};
use wire_attributes::tables::Meaning;
use wire_readers::one_if;

// Counts of transforms: all (`count`), those fit for encryption, key wrap, sequence numbers and the controller's authentication, and those
// with several Key Lengths (`doubled`).
#[derive(Clone, Copy, Default)]
pub struct SuiteCounts {
    pub count: usize,
    pub encryption: usize,
    pub wrapping: usize,
    pub sequence: usize,
    pub authentication: usize,
    pub doubled: usize,
}

// The keying octets that transforms need for encryption and for key wrap.
#[derive(Clone, Copy)]
pub struct Needs {
    pub encryption: usize,
    pub wrapping: usize,
}

// A transform type and two IDs in it, either of which is fit.
#[derive(Clone, Copy)]
pub struct EitherId {
    pub kind: usize,
    pub one: usize,
    pub other: usize,
}

// Whether a transform of type `kind` with ID `id` has the type and one of the two IDs of `w`.
fn is_one_of(kind: usize, id: usize, w: EitherId) -> bool
    ensures { result ≡ (eqb kind w.kind && (eqb id w.one || eqb id w.other)) }
{
    kind == w.kind && (id == w.one || id == w.other)
}

// Counts one transform, of type `kind` with ID `id` and attributes `a`.
pub fn one_transform(kind: usize, id: usize, a: &[u8]) -> SuiteCounts
    requires { (id < 65536) × (is_whole (attributes (in_transform kind) 0 a.now) ≡ true) × (length a.now < 4294967296) }
    ensures { result ≡ suite_of (transform_in kind id a.now ∷ []) }
{
    let e = crate::rows::encryption_octets(kind, id, a);
    let w = crate::rows::wrapping_octets(kind, id);
    let n = wire_readers::values::count_of(
        Meaning::KeyLength,
        wire_attributes::tables::in_transform(kind),
        a,
    );
    let sequence = EitherId {
        kind: SN,
        one: SEQUENTIAL,
        other: UNSPECIFIED,
    };
    let authentication = EitherId {
        kind: GCAUTH,
        one: IMPLICIT,
        other: DIGITAL_SIGNATURE,
    };
    SuiteCounts {
        count: 1,
        encryption: one_if(0 < e),
        wrapping: one_if(0 < w),
        sequence: one_if(is_one_of(kind, id, sequence)),
        authentication: one_if(is_one_of(kind, id, authentication)),
        doubled: one_if(1 < n),
    }
}

impl SuiteCounts {
    // Answers the counts of no transform, with which a walk starts.
    pub fn none() -> SuiteCounts
        ensures { result ≡ suite_of [] }
    {
        SuiteCounts::default()
    }

    // Adds the counts `x` of one transform.
    pub fn plus(self, x: SuiteCounts) -> SuiteCounts
        requires { (n : ℕ) × (n < 18446744073709551615) × SuiteAtMost n self × SuiteAtMost 1 x }
        ensures { result ≡ plus self x }
    {
        SuiteCounts {
            count: self.count + x.count,
            encryption: self.encryption + x.encryption,
            wrapping: self.wrapping + x.wrapping,
            sequence: self.sequence + x.sequence,
            authentication: self.authentication + x.authentication,
            doubled: self.doubled + x.doubled,
        }
    }

    // Whether a policy of protocol `protocol` has the transforms that it must have, each once and no other. ESP: encryption and sequence
    // numbers. Rekey: encryption, key wrap and, if the exchange asks for it (`authentication`), the controller's authentication.
    pub fn is_fit(self, authentication: bool, protocol: usize) -> bool
        ensures { result ≡ fit_by authentication protocol self }
    {
        let esp = (self.count == 2) & ((self.encryption == 1) & (self.sequence == 1));
        let keys = (self.encryption == 1) & (self.wrapping == 1);
        let alone = (self.count == 2) & keys;
        let signed = (self.count == 3) & (keys & (self.authentication == 1));
        ((protocol == ESP) & esp)
            | ((protocol == GIKE_UPDATE) & ((authentication & signed) | (!authentication & alone)))
    }
}
