// Opens the keys of a frame that refusals 2 to 7 let pass, and makes the held list after acceptance.
ghost use Rattle.std.specs.Prelude.{◌≡◌, true, cond, List, ℕ};
ghost use Rattle.state_keys.specs.Limits.{limits};
ghost use Rattle.wire_attributes.specs.Tree.{WrapKey};
ghost use Rattle.wire_policies.specs.Policy.{policies};
ghost use Rattle.wire_frames.specs.Frame.{Frame};
ghost use Rattle.wire_readers.specs.inner.Values.{is_whole};
ghost use Rattle.state.specs.Held.{held_formed};
ghost use Rattle.state.specs.declared.State.{State};
ghost use Rattle.rules_chains.specs.Chain.{Root};
ghost use Rattle.rules_outcome.specs.Holding.{new_rekey, rekey_copies, held_before};
ghost use Rattle.unwrap_copies.specs.inner.Openers.{openers_of, OpenersAre};
ghost use Rattle.unwrap_paths.specs.inner.Kept.{LinksFit, SearchKept};
ghost use Rattle.receive.specs.inner.Opening.{SomeOpener, NextTold, Openable, KeysOpened};

use state::held::Held;
use state_keys::kinds::WrappingKey;
use state_keys::limits::HELD_KEYS;
use unwrap_copies::answer::{Openers, openers_listed};
use unwrap_lending::{BLOCK, PLACE, lend_keys, lend_named};
use unwrap_paths::held::{PathHeld, held_by_path};
use unwrap_paths::links::Links;
use unwrap_sas::joining::Keyed;
use unwrap_sas::open_sas;
use unwrap_tree::reach_any;
use unwrap_tree::source::entries_at;
use wire_frames::exchanges::Exchange;
use wire_readers::Stretch;

// Whether refusal 8 holds of the frame's entries. If it does not: the result for its SAs. If each SA has its key: whether the held list
// after acceptance would be over its limit (refusal 7), and if not, that list. Kept as flags behind arrays, here and in what it holds: behind
// a flag, and so behind the tag of an `Option`, the compiler gives an array that is handed on more room (docs/landings/T-11.md).
#[derive(Clone, Copy)]
pub struct KeysFound {
    pub keyed: Keyed,
    pub held: Held,
    pub conflict: bool,
    pub over: bool,
}

// Answers how many of `count` held keys a KWK ID can name: all if the exchange names held keys (`named`), else none.
fn named_count(named: bool, count: usize) -> usize
    ensures { result ≡ cond named count 0 }
{
    if named { count } else { 0 }
}

// Answers the list that a frame finds: `held`, but an exchange that sets the list (`registers`) takes none over.
fn held_before(registers: bool, held: Held) -> Held
    ensures { result ≡ held_before limits registers held }
{
    if registers { Held::new() } else { held }
}

// Answers the held list after acceptance, or that it would be over its limit. `openers` are the KWK IDs of the copies of the Rekey SA's key
// that open, none without a Rekey SA. `links` and `reached` are what the search over the frame's entries kept and found.
fn held_after(
    registers: bool,
    held: Held,
    openers: Openers,
    links: Links,
    reached: Held,
) -> PathHeld
    requires links_fit { LinksFit links }
    requires held_value { held_formed limits held ≡ true }
    ensures { (roots : List Root) (l : List WrapKey) (size : ℕ) (f : Frame) → SearchKept roots l size links reached →
        OpenersAre roots l size (rekey_copies f) (openers_of openers) → SomeOpener roots l size f →
        NextTold roots l size (new_rekey f) (rekey_copies f) (held_before limits registers held) result }
{
    let old = held_before(registers, held);
    let n = openers_listed(openers);
    if n == 0 {
        return PathHeld {
            over: false,
            held: old,
        };
    }
    let kwks = openers.ids;
    held_by_path(links, reached, old, &kwks[..n])
}

// Opens the keys of the frame with the GSA body `gsa` and the KD body `kd`, for a member with the held list `held`. `row` is the row of its
// exchange, `zero` is key 0, `reads` says that fresh tree keys are read, and the attributes of the Member Key Bag stand in the stretch
// `bag` of `kd`. The SAs are opened even if refusal 8 holds of the entries, because a second return would take 30 kB of stack
// (docs/landings/T-04.md).
pub fn open_keys(
    held: Held,
    row: Exchange,
    zero: WrappingKey,
    reads: bool,
    gsa: &[u8],
    kd: &[u8],
    bag: Stretch,
    tick: u32,
) -> KeysFound
    requires gsa_value { is_whole (policies 0 gsa.now) ≡ true }
    requires by_index { (m : State) × (lent : List ℕ) × (f : Frame) × Openable row m tick lent gsa.now kd.now bag held zero reads f }
    ensures { (m : State) (lent : List ℕ) (f : Frame) →
        Openable row m tick lent gsa.now kd.now bag held zero reads f → KeysOpened m tick lent result f }
{
    let source = entries_at(row.registers, reads, gsa, kd, bag);
    let mut ids = [0u32; HELD_KEYS];
    let mut block = [0u8; BLOCK];
    lend_keys(&held, &mut ids, &mut block);
    let m = named_count(row.names_held_keys, held.count);
    let e = PLACE * m;
    let found = reach_any(kd, source, zero, &ids[..m], &block[..e]);
    let links = found.links;
    let reached = found.held;
    let carried = links.ids;
    let n = links.count;
    let mut fresh = [0u8; BLOCK];
    lend_named(&carried[..n], &reached, &mut fresh);
    let end = PLACE * n;
    let keyed = open_sas(
        reads,
        gsa,
        kd,
        zero,
        &carried[..n],
        &fresh[..end],
        &ids[..m],
        &block[..e],
        tick,
    );
    let openers = keyed.openers;
    let after = held_after(row.registers, held, openers, links, reached);
    let list = after.held;
    KeysFound {
        conflict: found.conflict,
        keyed,
        over: after.over,
        held: list,
    }
}
