use thiserror::Error;

/// Why a journal is not read. Lines are counted from the journal's first line, which is line 1.
#[derive(Clone, Copy, Debug, PartialEq, Eq, Error)]
pub enum JournalFault {
    /// The source failed, and no line that came before has a fault.
    #[error("the source of the journal failed")]
    ReadFault,
    /// The first line is of another form, passes 128 bytes, or has not ended where the input does.
    #[error("the first line is not that of a journal")]
    Header,
    /// The line is of another form than the one that stands there, or passes 128 bytes.
    #[error("a line of the journal is of another form")]
    Line(u64),
    /// The line begins a change of a list that is not declared before it.
    #[error("a change names a list that is not declared")]
    UnknownList(u64),
    /// The line declares a list that is declared already.
    #[error("a list is declared twice")]
    ListTwice(u64),
    /// The line passes a limit of lists, changes, hash lines or full hashes.
    #[error("the journal has more than is kept")]
    TooMany(u64),
    /// The line ends a change that leaves the list with too many bytes of prefixes.
    #[error("a list has more bytes of prefixes than are kept")]
    TooLarge(u64),
    #[error("out of memory")]
    OutOfMemory,
}
