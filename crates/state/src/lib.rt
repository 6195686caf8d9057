// The state of a member: its table, its held list and the least Message ID that it takes.
// Internal: crates of this repository alone call it.
#![tactic(auto)]

pub mod held;
pub mod least;

ghost use Rattle.std.specs.Prelude.{◌≡◌, false};
ghost use Rattle.state_keys.specs.Limits.{limits};
ghost use Rattle.state.specs.State.{new_state, state_formed, swept_state, asked_sa};

use held::Held;
use least::Least;
use state_sa::entry::Sa;
use state_table::Table;

#[derive(Clone, Copy, PartialEq, Eq)]
pub struct State {
    pub table: Table,
    pub held: Held,
    pub least: Least,
    // the member has the profile: it reads fresh keys (document 02, T-11)
    pub profile: bool,
}

impl State {
    // Makes the state of a new member without the profile.
    pub fn new() -> State
        ensures { result ≡ new_state limits false }
    {
        State::with_profile(false)
    }

    // Makes the state of a new member, with or without the profile.
    pub fn with_profile(profile: bool) -> State
        ensures { result ≡ new_state limits profile }
    {
        let table = Table::new();
        let held = Held::new();
        State {
            table,
            held,
            least: Least::Id(0),
            profile,
        }
    }

    // Whether the table and the held list are as a member's must be.
    pub fn is_formed(self) -> bool
        ensures { result ≡ state_formed limits self }
    {
        let t = self.table;
        let h = self.held;
        t.is_formed() && h.is_formed()
    }

    // Removes the SAs that are due at `tick`. A state that is not formed stays as it is.
    pub fn sweep(self, tick: u32) -> State
        ensures { result ≡ swept_state limits tick self }
    {
        if !self.is_formed() {
            return self;
        }
        let t = self.table;
        let table = t.sweep(tick);
        State { table, ..self }
    }

    // Finds the SA with this `protocol` and `spi`. In a state that is not formed it finds none.
    pub fn find(self, protocol: u8, spi: &[u8]) -> Option<Sa>
        ensures { result ≡ asked_sa limits protocol spi.now self }
    {
        if !self.is_formed() {
            return None;
        }
        let t = self.table;
        t.find(protocol, spi)
    }
}
