use crate::Why;

/// Hears from a link whether its server can be reached, while the link is used. A change is told once.
pub trait LinkTeller {
    /// The server cannot be reached, and why: its address is not found, it refuses, or it is silent.
    fn out_of_reach(&mut self, why: Why);
    /// The server has answered again.
    fn in_reach(&mut self);
}

/// Who is told of no change.
#[derive(Clone, Copy, Debug, PartialEq, Eq)]
pub struct Nobody;

impl LinkTeller for Nobody {
    fn out_of_reach(&mut self, _why: Why) {}

    fn in_reach(&mut self) {}
}
