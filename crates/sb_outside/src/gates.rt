/// A point of a run that several threads come to.
#[derive(Clone, Copy, Debug, PartialEq, Eq, Hash)]
pub enum Point {
    /// Before the round of this number, counted from 1.
    Round(u32),
    /// After the publication of this number.
    Published(u64),
    /// Before the check of this place, counted from 0.
    Check(u32),
}

/// Where threads can be made to wait for one another. A gate changes no value that a contract speaks of.
pub trait Gate {
    /// Lets the caller past this point. It may wait.
    fn pass(&self, point: Point);
}

/// A gate at which nobody waits.
#[derive(Clone, Copy, Debug, PartialEq, Eq, Hash)]
pub struct OpenGate;

impl Gate for OpenGate {
    fn pass(&self, _point: Point) {}
}
