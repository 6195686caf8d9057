// Names of code numbers (RFC 7296; RFC 7383 for payload 53; RFC 9838, sections 4 and 9).
use wire_attributes::tables::Place;

// The name of every number without one in these papers.
const UNKNOWN: &str = "unknown";

// Names the exchange type `kind` (RFC 7296, section 3.1; RFC 9838, section 9.2).
pub fn exchange(kind: usize) -> &'static str {
    match kind {
        34 => "IKE_SA_INIT",
        35 => "IKE_AUTH",
        36 => "CREATE_CHILD_SA",
        37 => "INFORMATIONAL",
        39 => "GSA_AUTH",
        40 => "GSA_REGISTRATION",
        41 => "GSA_REKEY",
        42 => "GSA_INBAND_REKEY",
        _ => UNKNOWN,
    }
}

// Names the payload type `kind` by its notation (RFC 7296, section 3.2; RFC 9838, section 9.2).
pub fn payload(kind: usize) -> &'static str {
    match kind {
        33 => "SA",
        34 => "KE",
        35 => "IDi",
        36 => "IDr",
        37 => "CERT",
        38 => "CERTREQ",
        39 => "AUTH",
        40 => "Nonce",
        41 => "N",
        42 => "D",
        43 => "V",
        44 => "TSi",
        45 => "TSr",
        46 => "SK",
        47 => "CP",
        48 => "EAP",
        50 => "IDg",
        51 => "GSA",
        52 => "KD",
        53 => "SKF",
        _ => UNKNOWN,
    }
}

// Names the security protocol `number`; 6 is GIKE_UPDATE (RFC 9838, section 9.2), the protocol of Rekey SAs.
pub fn protocol(number: usize) -> &'static str {
    match number {
        1 => "IKE",
        2 => "AH",
        3 => "ESP",
        6 => "Rekey",
        _ => UNKNOWN,
    }
}

// Names the transform type `kind` (RFC 7296, section 3.3.2; RFC 9838, section 9.2).
pub fn transform_type(kind: usize) -> &'static str {
    match kind {
        1 => "Encryption Algorithm",
        2 => "Pseudorandom Function",
        3 => "Integrity Algorithm",
        4 => "Key Exchange Method",
        5 => "Sequence Numbers",
        13 => "Key Wrap Algorithm",
        14 => "Group Controller Authentication Method",
        _ => UNKNOWN,
    }
}

// Names the encryption algorithm `id` (RFC 7296, section 3.3.2; RFC 5282 for 20).
fn encryption(id: usize) -> &'static str {
    match id {
        1 => "DES_IV64",
        2 => "DES",
        3 => "3DES",
        4 => "RC5",
        5 => "IDEA",
        6 => "CAST",
        7 => "BLOWFISH",
        8 => "3IDEA",
        9 => "DES_IV32",
        11 => "NULL",
        12 => "AES_CBC",
        13 => "AES_CTR",
        20 => "AES-GCM-16",
        _ => UNKNOWN,
    }
}

// Names the integrity algorithm `id` (RFC 7296, section 3.3.2).
fn integrity(id: usize) -> &'static str {
    match id {
        0 => "NONE",
        1 => "HMAC_MD5_96",
        2 => "HMAC_SHA1_96",
        3 => "DES_MAC",
        4 => "KPDK_MD5",
        5 => "AES_XCBC_96",
        _ => UNKNOWN,
    }
}

// Names the kind `id` of sequence numbers (RFC 9838, section 4.4.2.1.3).
fn sequence_numbers(id: usize) -> &'static str {
    match id {
        0 => "32-bit Sequential Numbers",
        1 => "Partially Transmitted 64-bit Sequential Numbers",
        2 => "32-bit Unspecified Numbers",
        _ => UNKNOWN,
    }
}

// Names the key wrap algorithm `id` (RFC 9838, section 9.1).
fn key_wrap(id: usize) -> &'static str {
    match id {
        1 => "KW_5649_128",
        2 => "KW_5649_192",
        3 => "KW_5649_256",
        4 => "KW_ARX",
        _ => UNKNOWN,
    }
}

// Names the controller authentication method `id` (RFC 9838, section 9.1).
fn authentication(id: usize) -> &'static str {
    match id {
        1 => "Implicit",
        2 => "Digital Signature",
        _ => UNKNOWN,
    }
}

// Names the ID `id` of a transform of type `kind`.
pub fn transform_id(kind: usize, id: usize) -> &'static str {
    match kind {
        1 => encryption(id),
        3 => integrity(id),
        5 => sequence_numbers(id),
        13 => key_wrap(id),
        14 => authentication(id),
        _ => UNKNOWN,
    }
}

// Names the attribute `kind` of a transform (RFC 7296, section 3.3.5; RFC 9838, section 9.2).
fn transform_attribute(kind: usize) -> &'static str {
    match kind {
        14 => "Key Length",
        18 => "Signature Algorithm Identifier",
        _ => UNKNOWN,
    }
}

// Names the attribute `kind` of a Group SA policy (RFC 9838, section 9.1).
fn policy_attribute(kind: usize) -> &'static str {
    match kind {
        1 => "GSA_KEY_LIFETIME",
        2 => "GSA_INITIAL_MESSAGE_ID",
        3 => "GSA_NEXT_SPI",
        _ => UNKNOWN,
    }
}

// Names the attribute `kind` of a group-wide policy (RFC 9838, section 9.1).
fn wide_attribute(kind: usize) -> &'static str {
    match kind {
        1 => "GWP_ATD",
        2 => "GWP_DTD",
        3 => "GWP_SENDER_ID_BITS",
        _ => UNKNOWN,
    }
}

// Names the attribute `kind` of a Group Key Bag (RFC 9838, section 9.1).
fn group_bag_attribute(kind: usize) -> &'static str {
    match kind {
        1 => "SA_KEY",
        _ => UNKNOWN,
    }
}

// Names the attribute `kind` of a Member Key Bag (RFC 9838, section 9.1).
fn member_bag_attribute(kind: usize) -> &'static str {
    match kind {
        1 => "WRAP_KEY",
        2 => "AUTH_KEY",
        3 => "GM_SENDER_ID",
        _ => UNKNOWN,
    }
}

// Names the attribute `kind` by the `place` where it stands.
pub fn attribute(place: Place, kind: usize) -> &'static str {
    match place {
        Place::EncryptionTransform | Place::OtherTransform => transform_attribute(kind),
        Place::RekeyPolicy | Place::DataPolicy => policy_attribute(kind),
        Place::GroupWidePolicy => wide_attribute(kind),
        Place::RekeyBag | Place::FreshRekeyBag | Place::DataBag => group_bag_attribute(kind),
        Place::MemberBag => member_bag_attribute(kind),
    }
}
