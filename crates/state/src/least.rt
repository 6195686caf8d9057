// The least Message ID that a member takes in a rekey.
ghost use Rattle.std.specs.Prelude.{◌≡◌};
ghost use Rattle.state.specs.Least.{acceptable, after_id};

// The least acceptable Message ID, or that none is acceptable any more.
// Kept beside Option: a `None` would read as no least Message ID, so that all are acceptable, and it is the opposite.
#[derive(Clone, Copy, PartialEq, Eq)]
pub enum Least {
    Id(u32),
    NoneAnyMore,
}

impl Least {
    // Whether the Message ID `id` is acceptable.
    pub fn accepts(self, id: u32) -> bool
        ensures { result ≡ acceptable id self }
    {
        match self {
            Least::Id(n) => n <= id,
            Least::NoneAnyMore => false,
        }
    }

    // Answers what is acceptable after a rekey with the Message ID `id`.
    pub fn after(id: u32) -> Least
        ensures { result ≡ after_id id }
    {
        if id < 4294967295 {
            return Least::Id(id + 1);
        }
        Least::NoneAnyMore
    }
}
