// Readers for the checks that follow refusal 1: they go again through a frame whose layout is whole.
// Internal: crates of this repository alone call it.
#![tactic(auto)]

ghost use Rattle.std.specs.Prelude.{◌≡◌};
ghost use Rattle.wire_readers.specs.inner.Values.{once};

pub mod bag;
pub mod body;
pub mod payload;
pub mod policy;
pub mod values;

// A stretch of octets: from index `start` up to index `end`, which is not in it.
#[derive(Clone, Copy)]
pub struct Stretch {
    pub start: usize,
    pub end: usize,
}

// Turns `b` into a count: 1 if it is true, else 0.
pub fn one_if(b: bool) -> usize
    ensures { result ≡ once b }
{
    usize::from(b)
}
