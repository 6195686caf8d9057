// Shows what the calls answer.
use std::fmt;

// The answer of a call: shown as the count that it carries, or as `no`.
#[derive(Clone, Copy)]
pub(crate) struct Told(pub(crate) Option<usize>);

impl fmt::Display for Told {
    fn fmt<W: fmt::Write>(&self, f: &mut fmt::Formatter<W>) -> fmt::Result {
        match self.0 {
            Some(n) => write!(f, "{n}"),
            None => write!(f, "no"),
        }
    }
}
