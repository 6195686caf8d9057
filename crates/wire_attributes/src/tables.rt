// Which attribute is read where, in which format and size.
ghost use Rattle.std.specs.Prelude.{◌≡◌, ◌<◌};
ghost use Rattle.wire_attributes.specs.Place.{meaning_of, key_value_sized, four_octets, format_fits, in_transform, in_policy, in_bag};

use ikev2_numbers::{
    ENCR, FRESH_KEY, GIKE_UPDATE, GSA_INITIAL_MESSAGE_ID, GSA_KEY_LIFETIME, GWP_DTD, KEY_LENGTH,
    LEAST_KEY_VALUE, MOST_KEY_VALUE, SA_KEY, WRAP_KEY, WRAPPED_BLOCK,
};

// Where an attribute stands: in which sort of transform, policy or key bag. `FreshRekeyBag` is a Rekey SA's Group Key Bag in which fresh
// keys are read, `RekeyBag` one in which they are not.
#[derive(Clone, Copy, Debug, PartialEq, Eq)]
pub enum Place {
    EncryptionTransform,
    OtherTransform,
    RekeyPolicy,
    DataPolicy,
    GroupWidePolicy,
    RekeyBag,
    FreshRekeyBag,
    DataBag,
    MemberBag,
}

// What an attribute is in its place. `Skipped` is one that is not read there.
#[derive(Clone, Copy, Debug, PartialEq, Eq)]
pub enum Meaning {
    Skipped,
    KeyLength,
    InitialMessageId,
    DeactivationDelay,
    KeyLifetime,
    SaKey,
    WrapKey,
    FreshKey,
}

// Looks up what an attribute of the type `kind` is in `place`.
pub fn meaning_in(place: Place, kind: usize) -> Meaning
    ensures { result ≡ meaning_of place kind }
{
    match (place, kind) {
        (Place::EncryptionTransform, KEY_LENGTH) => Meaning::KeyLength,
        (Place::RekeyPolicy | Place::DataPolicy, GSA_KEY_LIFETIME) => Meaning::KeyLifetime,
        (Place::RekeyPolicy, GSA_INITIAL_MESSAGE_ID) => Meaning::InitialMessageId,
        (Place::GroupWidePolicy, GWP_DTD) => Meaning::DeactivationDelay,
        (Place::RekeyBag | Place::FreshRekeyBag | Place::DataBag, SA_KEY) => Meaning::SaKey,
        (Place::FreshRekeyBag, FRESH_KEY) => Meaning::FreshKey,
        (Place::MemberBag, WRAP_KEY) => Meaning::WrapKey,
        _ => Meaning::Skipped,
    }
}

// Whether `n` is a size of a wrapped key's value: two IDs of 4 octets each, then 16 to 264 octets, a multiple of 8.
fn is_wrapped_size(n: usize) -> bool
    ensures { result ≡ key_value_sized n }
{
    LEAST_KEY_VALUE <= n && n <= MOST_KEY_VALUE && n % WRAPPED_BLOCK == 0
}

// Whether a value of `n` octets has the format TLV (`short` is false) and four octets.
fn is_four_octets(short: bool, n: usize) -> bool
    ensures { result ≡ four_octets short n }
{
    !short && n == 4
}

// Whether the meaning `m` allows the format (`short` is TV) and a value of `n` octets.
pub fn is_formed(m: Meaning, short: bool, n: usize) -> bool
    ensures { result ≡ format_fits m short n }
{
    match m {
        Meaning::Skipped => true,
        Meaning::KeyLength | Meaning::DeactivationDelay => short,
        Meaning::InitialMessageId | Meaning::KeyLifetime => is_four_octets(short, n),
        Meaning::SaKey | Meaning::WrapKey | Meaning::FreshKey => !short && is_wrapped_size(n),
    }
}

// Answers the place of the attributes of a transform of the type `kind`.
pub fn in_transform(kind: usize) -> Place
    ensures { result ≡ in_transform kind }
{
    if kind == ENCR {
        Place::EncryptionTransform
    } else {
        Place::OtherTransform
    }
}

// Answers the place of the attributes of a Group SA policy of `protocol`.
pub fn in_policy(protocol: usize) -> Place
    ensures { result ≡ in_policy protocol }
{
    if protocol == GIKE_UPDATE {
        Place::RekeyPolicy
    } else {
        Place::DataPolicy
    }
}

// Answers the place of the attributes of a Group Key Bag of `protocol`. `fresh` says whether fresh keys are read in a Rekey SA's bag.
pub fn in_bag(fresh: bool, protocol: usize) -> Place
    ensures { result ≡ in_bag fresh protocol }
{
    if protocol != GIKE_UPDATE {
        Place::DataBag
    } else if fresh {
        Place::FreshRekeyBag
    } else {
        Place::RekeyBag
    }
}
