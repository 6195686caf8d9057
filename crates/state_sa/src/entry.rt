// An SA of the table. Its unused places are the octets behind an ESP SPI, the octets behind the keying octets, and an ESP SA's part counts.
// They are 0 in every SA made here from a key as its constructor made it. In an SA that comes in they may hold anything; no test looks at
// them.
ghost use Rattle.std.specs.Prelude.{◌≡◌, ◌+◌, ◌≤◌, true, length};
ghost use Rattle.state_keys.specs.Rooms.{encryption_key_room};
ghost use Rattle.state_keys.specs.Kinds.{rekey_sizes};
ghost use Rattle.state_sa.specs.Entry.{make_sa, blank_sa, sa_spi_size, sa_before, named, sa_sized, fit_lifetime, sa_formed, live_rekey, due_by};
ghost use Rattle.state_sa.specs.Entry.{ran_out, due};
ghost use Rattle.state_sa.specs.Entry.{retired, esp_sa, rekey_sa, keying_of};

use ikev2_numbers::{DATA_SPI, REKEY_SPI};
use state_keys::kinds::{EspKey, RekeyKey, padded};
use state_keys::rooms::{SA_OCTETS, SA_SPI};

// The protocols of the SAs in the table: ESP, and GIKE_UPDATE for a Rekey SA.
pub const ESP: u8 = ikev2_numbers::ESP as u8;

pub const REKEY: u8 = ikev2_numbers::GIKE_UPDATE as u8;

// The condition of an SA: live, or retiring from the tick `start` on with a delay in seconds.
// Kept beside Option: a `None` would not say that the SA is live.
#[derive(Clone, Copy, PartialEq, Eq)]
pub enum Condition {
    Live,
    Retiring { start: u32, delay: u16 },
}

// The lifetime of an SA: none, or `seconds` from the tick `start` on.
// Kept beside Option: a `None` here would read as a lifetime of nothing, and it is the one that never ends.
#[derive(Clone, Copy, PartialEq, Eq)]
pub enum Lifetime {
    Unlimited,
    Limited { start: u32, seconds: u32 },
}

// The most seconds that a lifetime may have.
pub const MOST_SECONDS: u32 = 2000000;

// An SA. Of `octets` the first `count` are its keying octets; in a Rekey SA these are a part of `encryption` octets and one of `wrapping`.
// Kept as an array with its count, since memory is fixed.
#[derive(Clone, Copy, PartialEq, Eq)]
pub struct Sa {
    pub protocol: u8,
    pub spi: [u8; SA_SPI],
    pub octets: [u8; SA_OCTETS],
    pub count: usize,
    pub encryption: usize,
    pub wrapping: usize,
    pub condition: Condition,
    pub lifetime: Lifetime,
}

// Answers the count of octets in an SPI of `protocol`; 0 for a protocol that no SA of the table has.
pub fn spi_size(protocol: u8) -> usize
    ensures { (result ≡ sa_spi_size protocol) × (result ≤ 16) }
{
    if protocol == ESP {
        return DATA_SPI;
    }
    if protocol == REKEY {
        return REKEY_SPI;
    }
    0
}

impl Sa {
    // Makes the value of an unused place of the table.
    pub fn blank() -> Sa
        ensures { result ≡ blank_sa }
    {
        Sa {
            protocol: 0,
            spi: [0u8; SA_SPI],
            octets: [0u8; SA_OCTETS],
            count: 0,
            encryption: 0,
            wrapping: 0,
            condition: Condition::Live,
            lifetime: Lifetime::Unlimited,
        }
    }

    // Makes a live ESP SA with the SPI `spi`, the keying octets of `key` and `lifetime`.
    pub fn esp(spi: &[u8], key: EspKey, lifetime: Lifetime) -> Sa
        requires { (length spi.now ≡ 4) × (key.count ≤ encryption_key_room) }
        ensures { result ≡ esp_sa spi.now key lifetime }
    {
        let count = key.count;
        Sa {
            protocol: ESP,
            spi: padded(spi),
            octets: padded(&key.octets[..count]),
            count,
            lifetime,
            ..Sa::blank()
        }
    }

    // Makes a live Rekey SA with the SPI `spi`, the keying octets of `key` and `lifetime`.
    pub fn rekey(spi: &[u8], key: RekeyKey, lifetime: Lifetime) -> Sa
        requires { (length spi.now ≡ 16) × (rekey_sizes key.encryption key.wrapping ≡ true) }
        ensures { result ≡ rekey_sa spi.now key lifetime }
    {
        let octets = key.octets;
        Sa {
            protocol: REKEY,
            spi: padded(spi),
            octets,
            count: key.encryption + key.wrapping,
            encryption: key.encryption,
            wrapping: key.wrapping,
            lifetime,
            ..Sa::blank()
        }
    }

    // Whether the SA is due at the tick `now`: its delay or its lifetime has passed.
    pub fn due(self, now: u32) -> bool
        ensures { result ≡ due now self }
    {
        self.delay_passed(now) || self.has_run_out(now)
    }

    // Whether the SA is retiring and its delay has passed at the tick `now`.
    fn delay_passed(self, now: u32) -> bool
        ensures { result ≡ due_by now self.condition }
    {
        match self.condition {
            Condition::Live => false,
            Condition::Retiring { start, delay } => crate::clock::elapsed_at_least(
                now,
                start,
                delay as u32,
            ),
        }
    }

    // Whether the SA has a lifetime that has passed at the tick `now`.
    fn has_run_out(self, now: u32) -> bool
        ensures { result ≡ ran_out now self.lifetime }
    {
        match self.lifetime {
            Lifetime::Unlimited => false,
            Lifetime::Limited { start, seconds } => crate::clock::elapsed_at_least(
                now, start, seconds,
            ),
        }
    }

    // Retires a live SA at the tick `now` with `delay` seconds; it keeps its lifetime. A retiring SA stays as it is.
    pub fn retire(self, now: u32, delay: u16) -> Sa
        ensures { result ≡ retired now delay self }
    {
        match self.condition {
            Condition::Live => {
                let condition = Condition::Retiring { start: now, delay };
                Sa { condition, ..self }
            }
            Condition::Retiring { .. } => self,
        }
    }

    // Whether the SA stands before `other` in the table: by protocol, then by SPI.
    pub fn before(self, other: Sa) -> bool
        ensures { result ≡ sa_before self other }
    {
        if self.protocol < other.protocol {
            return true;
        }
        if other.protocol < self.protocol {
            return false;
        }
        let x = self.spi;
        let y = other.spi;
        let n = spi_size(self.protocol);
        let m = spi_size(other.protocol);
        octets::compare::less(&x[0..n], &y[0..m])
    }

    // Whether the SA has this `protocol` and `spi`.
    pub fn is_named(self, protocol: u8, spi: &[u8]) -> bool
        ensures { result ≡ named protocol spi.now self }
    {
        let n = spi_size(self.protocol);
        self.protocol == protocol && octets::compare::same(&self.spi[..n], spi)
    }

    // Whether the SA can stand in the table: its protocol, octet counts and lifetime are allowed.
    pub fn is_formed(self) -> bool
        ensures { result ≡ sa_formed self }
    {
        self.is_sized() && self.fit_lifetime()
    }

    // Whether the lifetime, if any, has at most `MOST_SECONDS`.
    fn fit_lifetime(self) -> bool
        ensures { result ≡ fit_lifetime self.lifetime }
    {
        match self.lifetime {
            Lifetime::Unlimited => true,
            Lifetime::Limited { start: _, seconds } => seconds <= MOST_SECONDS,
        }
    }

    // Whether the protocol is one of the two and the octet counts are those that the protocol needs.
    fn is_sized(self) -> bool
        ensures { result ≡ sa_sized self }
    {
        if self.protocol == ESP {
            return EspKey::is_size(self.count);
        }
        let e = self.encryption;
        let w = self.wrapping;
        if self.protocol != REKEY || !RekeyKey::are_sizes(e, w) {
            return false;
        }
        self.count == e + w
    }

    // Answers the keying octets of a Rekey SA with the octet counts of their two parts.
    pub fn rekey_key(self) -> RekeyKey
        ensures { result ≡ keying_of self }
    {
        let octets = self.octets;
        RekeyKey {
            octets,
            encryption: self.encryption,
            wrapping: self.wrapping,
        }
    }

    // Whether the SA is a live Rekey SA.
    pub fn is_live_rekey(self) -> bool
        ensures { result ≡ live_rekey self }
    {
        self.protocol == REKEY && matches!(self.condition, Condition::Live)
    }
}
