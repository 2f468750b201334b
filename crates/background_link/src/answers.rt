use real_objects::Why;
use sb_model::Bytes;
use std::alloc::Global;

/// What stands behind the bytes that came.
#[derive(Clone, Copy, Debug)]
pub(crate) enum End {
    /// The other side ended.
    Ended,
    /// A call to the other side failed.
    Lost(Why),
    /// The link itself goes no further.
    Refused(Why),
}

/// Why a session fails to which memory is refused.
pub(crate) fn no_memory() -> Why {
    Why::refusal("takes more memory than there is")
}

/// What came of a session.
#[derive(Drop)]
pub(crate) struct Answer {
    pub(crate) heard: Bytes,
    pub(crate) end: End,
}

impl Answer {
    /// Nothing came.
    pub(crate) fn none(alloc: Global, end: End) -> Answer {
        Answer {
            heard: Bytes::new(alloc),
            end,
        }
    }
}
