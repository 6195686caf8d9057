// The code numbers of IKEv2 and G-IKEv2, and the sizes and places of their fields. Each stands here once, with the section that gives it;
// `specs/Codes` has the same numbers for the definitions.
#![tactic(auto)]

// Exchange types (RFC 9838, section 9.2).
pub const GSA_AUTH: usize = 39;

pub const GSA_REGISTRATION: usize = 40;

pub const GSA_REKEY: usize = 41;

pub const GSA_INBAND_REKEY: usize = 42;

// Payload types (RFC 7296, section 3.2; GSA and KD: RFC 9838, section 9.2). 0 ends the chain of payloads.
pub const NO_PAYLOAD: usize = 0;

pub const IDR: usize = 36;

pub const CERT: usize = 37;

pub const AUTH: usize = 39;

pub const NOTIFY: usize = 41;

pub const DELETE: usize = 42;

pub const GSA: usize = 51;

pub const KD: usize = 52;

// Security protocols (RFC 7296, section 3.3.1; GIKE_UPDATE: RFC 9838, section 4.4.2). 0 stands in their place in a group-wide policy and in
// a Member Key Bag (RFC 9838, sections 4.4.3 and 4.5.3).
pub const NO_PROTOCOL: usize = 0;

pub const AH: usize = 2;

pub const ESP: usize = 3;

pub const GIKE_UPDATE: usize = 6;

// Transform types (RFC 7296, section 3.3.2; KWA and GCAUTH: RFC 9838, sections 4.4.2.1.2 and 4.4.2.1.1).
pub const ENCR: usize = 1;

pub const SN: usize = 5;

pub const KWA: usize = 13;

pub const GCAUTH: usize = 14;

// Transform IDs that document 01 takes beside those of its algorithm table: sequential and unspecified 32-bit sequence numbers (RFC 9838,
// section 4.4.2.1.3), controller authentication that is implicit or by digital signature (section 4.4.2.1.1).
pub const SEQUENTIAL: usize = 0;

pub const UNSPECIFIED: usize = 2;

pub const IMPLICIT: usize = 1;

pub const DIGITAL_SIGNATURE: usize = 2;

// The first octet of a transform says whether it is the last (RFC 7296, section 3.3.2).
pub const LAST_TRANSFORM: usize = 0;

pub const MORE_TRANSFORMS: usize = 3;

// Attribute types: of a transform (RFC 7296, section 3.3.5), a Group SA policy (RFC 9838, section 4.4.2.2), a group-wide policy (section
// 4.4.3.1), a Group Key Bag (section 4.5.2) and a Member Key Bag (section 4.5.3).
pub const KEY_LENGTH: usize = 14;

pub const GSA_KEY_LIFETIME: usize = 1;

pub const GSA_INITIAL_MESSAGE_ID: usize = 2;

pub const GWP_DTD: usize = 2;

pub const SA_KEY: usize = 1;

pub const WRAP_KEY: usize = 1;

// "private attribute 16385 in the Rekey SA's Group Key Bag, with WRAP_KEY's layout" (document 02, T-11).
pub const FRESH_KEY: usize = 16385;

// Traffic selector types (RFC 7296, section 3.13.1), the octets of a selector and of its addresses.
pub const TS_IPV4_ADDR_RANGE: usize = 7;

pub const TS_IPV6_ADDR_RANGE: usize = 8;

pub const IPV4_SELECTOR: usize = 16;

pub const IPV6_SELECTOR: usize = 40;

pub const IPV4_ADDRESS: usize = 4;

pub const IPV6_ADDRESS: usize = 16;

// Where the fields of a selector stand (RFC 7296, section 3.13.1): start port, end port, starting address with the ending one behind it.
pub const START_PORT_AT: usize = 4;

pub const END_PORT_AT: usize = 6;

pub const ADDRESSES_AT: usize = 8;

// The first octet of a group address: 224.0.0.0/4 and ff00::/8 (document 01).
pub const IPV4_GROUP_FIRST: usize = 224;

pub const IPV4_GROUP_LAST: usize = 239;

pub const IPV6_GROUP: usize = 255;

// The IKE header (RFC 7296, section 3.1): its octets, and where its fields stand. The version octet divided by the number of minor versions
// is the major version. Document 01: a frame has at most 16,384 octets.
pub const HEADER: usize = 28;

pub const MOST_OCTETS: usize = 16384;

pub const FIRST_PAYLOAD_AT: usize = 16;

pub const VERSION_AT: usize = 17;

pub const EXCHANGE_AT: usize = 18;

pub const FLAGS_AT: usize = 19;

pub const MESSAGE_ID_AT: usize = 20;

pub const LENGTH_AT: usize = 24;

pub const MAJOR_VERSION: usize = 2;

pub const MINOR_VERSIONS: usize = 16;

// The generic payload header (RFC 7296, section 3.2): its octets, the critical bit, where the length stands in it. Policies, key bags,
// selectors and transforms have their length in the same place.
pub const PAYLOAD_HEADER: usize = 4;

pub const CRITICAL: usize = 128;

pub const STRUCTURE_LENGTH_AT: usize = 2;

// Octets of the fixed fields: of a Delete payload's body (RFC 7296, section 3.11), of a policy or key bag up to its SPI (RFC 9838, sections
// 4.4.2 and 4.5.2), of a transform (RFC 7296, section 3.3.2).
pub const DELETE_HEAD: usize = 4;

pub const POLICY_HEAD: usize = 4;

pub const TRANSFORM_HEAD: usize = 8;

// Where the type and the ID of a transform stand, and the count of SPIs in a Delete payload's body (the same sections).
pub const TRANSFORM_TYPE_AT: usize = 4;

pub const TRANSFORM_ID_AT: usize = 6;

pub const DELETE_COUNT_AT: usize = 2;

// Octets of an SPI, by protocol (RFC 9838, section 4.4.2).
pub const DATA_SPI: usize = 4;

pub const REKEY_SPI: usize = 16;

// Attributes (RFC 7296, section 3.3.5): the format bit, the octets of type and length, and of a type with its value in short form.
pub const FORMAT_BIT: usize = 32768;

pub const ATTRIBUTE_HEAD: usize = 4;

// A short attribute: type 2, value 2.
pub const SHORT_ATTRIBUTE: usize = 4;

pub const SHORT_HEAD: usize = 2;

// The value of SA_KEY and WRAP_KEY: Key ID and KWK ID of four octets each, then 16 to 264 wrapped octets in blocks of 8 (document 01). The
// least and the most octets are those of the whole value.
pub const KWK_ID_AT: usize = 4;

pub const WRAPPED_AT: usize = 8;

pub const LEAST_KEY_VALUE: usize = 24;

pub const MOST_KEY_VALUE: usize = 272;

pub const WRAPPED_BLOCK: usize = 8;
