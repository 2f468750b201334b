/// A stretch of versions at which a list publishes a prefix of four bytes: that of one line which adds.
#[derive(Clone, Copy, Debug, PartialEq, Eq, PartialOrd, Ord)]
pub struct Stretch {
    /// The prefix as a big-endian number.
    pub head: u32,
    /// The version to which the line's change leads: the first of the stretch.
    pub from: u32,
    /// The version at which the line ends, and the greatest u32 while it has no end: the stretch ends before it.
    pub until: u32,
}
