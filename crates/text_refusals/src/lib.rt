// Names the clauses of document 01's numbers 4 to 7 that apply to a frame alone, for the program `show`. Asks the functions by which a
// member judges, without the member's table and the lent key. Of several GSA or KD payloads it looks at the first, as a member does. It
// reads a frame as a member without the profile does: fresh keys are skipped (document 02, T-11).
// Internal: crates of this repository alone call it.
#![tactic(auto)]

ghost use Rattle.std.specs.Prelude.{◌≡◌, true, false};
ghost use Rattle.wire_frames.specs.Frame.{frame};
ghost use Rattle.wire_readers.specs.inner.Values.{is_whole};

use check_judging::facts::{Facts, facts_of};
use check_judging::number4::{Clauses4, clauses_4, number_4};
use check_judging::number5::{Clauses5, clauses_5, number_5};
use check_judging::number6::{Keys, any_unfit_key, clauses_6};
use check_judging::number7::{Clauses7, clauses_7, number_7};
use check_pairing::names::any_unpaired;
use ikev2_numbers::EXCHANGE_AT;
use state_keys::kinds::WrappingKey;
use std::fmt;
use std::fmt::Write;
use wire_frames::exchanges::{Exchange, exchange_of};

mod text;

// The size of a lent key that fits: no clause applies because of the lent key.
const LENT: usize = WrappingKey::KW_128;

// The count of standing SAs. There is none: no clause applies because of the table.
const STANDING: usize = 0;

// Which clauses apply to a frame.
#[derive(Drop)]
pub(crate) struct ClauseFound {
    // the exchange is one of the four that are taken
    admitted: bool,
    // one of the clauses applies
    any: bool,
    number4: Clauses4,
    number5: Clauses5,
    // number 6: the protocol and SPI of a policy are not those of exactly one Group Key Bag (`policies`), and the other way round (`bags`)
    policies: bool,
    bags: bool,
    keys: Keys,
    number7: Clauses7,
}

// Whether one of the clauses applies. `unpaired` says whether one on the pairing of policies and bags does.
fn any(row: Exchange, x: Facts, unpaired: bool) -> bool {
    let number4 = number_4(row, x);
    let number5 = number_5(row, LENT, x);
    let keys = any_unfit_key(row, x.bags);
    let number7 = number_7(x, STANDING);
    number4 | number5 | unpaired | keys | number7
}

// Collects the clauses that apply to a frame with the facts `x`. `policies` and `bags` say whether those on the pairing do.
fn by_facts(row: Exchange, x: Facts, policies: bool, bags: bool) -> ClauseFound {
    ClauseFound {
        admitted: row.admitted,
        any: any(row, x, policies | bags),
        number4: clauses_4(row, x),
        number5: clauses_5(row, LENT, x),
        policies,
        bags,
        keys: clauses_6(row, x.bags),
        number7: clauses_7(x, STANDING),
    }
}

// Collects the clauses that apply to the frame `s`, whose layout is whole.
fn of_frame(s: &[u8]) -> ClauseFound
    requires { is_whole (frame false s.now) ≡ true }
{
    let row = exchange_of(octets::wide(s[EXCHANGE_AT]));
    let x = facts_of(false, row, s);
    let b = x.payloads;
    let g = b.gsa;
    let k = b.kd;
    let a = g.start;
    let e = g.end;
    let i = k.start;
    let j = k.end;
    let policies = any_unpaired(&s[a..e], &s[i..j]);
    let bags = any_unpaired(&s[i..j], &s[a..e]);
    by_facts(row, x, policies, bags)
}

// Puts a line for each clause that applies to the frame `s`, or a line saying that none does. Puts nothing if the layout of `s` is broken.
pub fn put_applying(w: &mut impl Write, s: &[u8]) -> fmt::Result {
    match wire_frames::frame_layout(s) {
        Ok(()) => text::put_lines(w, of_frame(s)),
        Err(_) => Ok(()),
    }
}
