// What differs between exchanges (RFC 9838, section 9): one row for each.
ghost use Rattle.std.specs.Prelude.{◌≡◌};
ghost use Rattle.ikev2_numbers.specs.Codes.{gsa_auth, gsa_inband_rekey, gsa_rekey};
ghost use Rattle.wire_frames.specs.Exchange.{exchange_of, reads_fresh};

use ikev2_numbers::{GSA_AUTH, GSA_INBAND_REKEY, GSA_REGISTRATION, GSA_REKEY};

// What refusal 2 asks the member to be at the frame's tick, before the frame is applied.
#[derive(Clone, Copy)]
pub enum Wanted {
    Empty,
    NotEmpty,
    Any,
}

// The key that KWK ID 0 names: the lent default key, or the Rekey SA's default key.
#[derive(Clone, Copy)]
pub enum KeyZero {
    Lent,
    RekeySa,
}

// The least acceptable Message ID after a frame that brings no new Rekey SA: 0, the frame's own plus 1, or as it was.
#[derive(Clone, Copy)]
pub enum LeastAfter {
    Zero,
    OwnPlusOne,
    Kept,
}

// The row of one exchange: what it asks and allows where exchanges differ.
#[derive(Clone, Copy)]
pub struct Exchange {
    // the exchange is one of those that are taken (refusal 2)
    pub admitted: bool,
    pub wanted: Wanted,
    // its two SPIs are compared with the live Rekey SA's
    pub compares_spis: bool,
    // its Message ID is compared with the least acceptable
    pub compares_message_id: bool,
    // the lent key's size is judged
    pub judges_lent_key: bool,
    pub zero: KeyZero,
    // held keys can be named by a KWK ID
    pub names_held_keys: bool,
    // a Member bag is allowed
    pub allows_member_bag: bool,
    // D is allowed
    pub allows_deletes: bool,
    // a Rekey SA may have more than one SA_KEY
    pub allows_copies: bool,
    // a Rekey policy has the controller authentication transform
    pub authentication: bool,
    // the held list is set to the working key path, and not kept
    pub registers: bool,
    pub least: LeastAfter,
    // fresh keys are read, by a member with the profile
    pub reads_fresh_keys: bool,
}

// Answers the row of the exchange type `kind`.
pub fn exchange_of(kind: usize) -> Exchange
    ensures { result ≡ exchange_of kind }
{
    match kind {
        GSA_AUTH | GSA_REGISTRATION => registration(),
        GSA_REKEY => rekey(),
        GSA_INBAND_REKEY => inband(),
        _ => other(),
    }
}

// Whether fresh keys are read in a frame of the exchange type `kind` that a member with this `profile` gets.
pub fn reads_fresh(profile: bool, kind: usize) -> bool
    ensures { result ≡ reads_fresh profile kind }
{
    profile && exchange_of(kind).reads_fresh_keys
}

// Answers the row of GSA_AUTH and GSA_REGISTRATION.
fn registration() -> Exchange
    ensures { result ≡ exchange_of gsa_auth }
{
    Exchange {
        admitted: true,
        wanted: Wanted::Empty,
        compares_spis: false,
        compares_message_id: false,
        judges_lent_key: true,
        zero: KeyZero::Lent,
        names_held_keys: false,
        allows_member_bag: true,
        allows_deletes: false,
        allows_copies: false,
        authentication: true,
        registers: true,
        least: LeastAfter::Zero,
        reads_fresh_keys: false,
    }
}

// Answers the row of GSA_REKEY.
fn rekey() -> Exchange
    ensures { result ≡ exchange_of gsa_rekey }
{
    Exchange {
        admitted: true,
        wanted: Wanted::Any,
        compares_spis: true,
        compares_message_id: true,
        judges_lent_key: false,
        zero: KeyZero::RekeySa,
        names_held_keys: true,
        allows_member_bag: false,
        allows_deletes: true,
        allows_copies: true,
        authentication: true,
        registers: false,
        least: LeastAfter::OwnPlusOne,
        reads_fresh_keys: true,
    }
}

// Answers the row of GSA_INBAND_REKEY.
fn inband() -> Exchange
    ensures { result ≡ exchange_of gsa_inband_rekey }
{
    Exchange {
        admitted: true,
        wanted: Wanted::NotEmpty,
        compares_spis: false,
        compares_message_id: false,
        judges_lent_key: true,
        zero: KeyZero::Lent,
        names_held_keys: false,
        allows_member_bag: false,
        allows_deletes: false,
        allows_copies: false,
        authentication: true,
        registers: false,
        least: LeastAfter::Kept,
        reads_fresh_keys: false,
    }
}

// Answers the row of every other exchange type: it is not taken (refusal 2).
fn other() -> Exchange
    ensures { result ≡ exchange_of 0 }
{
    Exchange {
        admitted: false,
        wanted: Wanted::Any,
        compares_spis: false,
        compares_message_id: false,
        judges_lent_key: false,
        zero: KeyZero::Lent,
        names_held_keys: false,
        allows_member_bag: true,
        allows_deletes: true,
        allows_copies: true,
        authentication: false,
        registers: false,
        least: LeastAfter::Zero,
        reads_fresh_keys: false,
    }
}
