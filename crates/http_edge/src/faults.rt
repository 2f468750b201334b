use thiserror::Error;

/// Why a request was not read.
#[derive(Clone, Copy, Debug, PartialEq, Eq, Hash, Error)]
pub enum RequestFault {
    #[error("the request could not be received")]
    ReadFault,
    #[error("the head of the request is malformed")]
    Head,
    #[error("the head of the request is too long")]
    HeadLimit,
    #[error("the request gives no length")]
    NoLength,
    #[error("the body of the request is too long: {0} bytes")]
    BodyLimit(u64),
    #[error("the request is not whole")]
    Cut,
    #[error("out of memory")]
    OutOfMemory,
}

/// Why a response was not written.
#[derive(Clone, Copy, Debug, PartialEq, Eq, Hash, Error)]
pub enum ResponseFault {
    #[error("the response could not be sent")]
    WriteFault,
    #[error("out of memory")]
    OutOfMemory,
}

/// Why an exchange gave no body.
#[derive(Clone, Copy, Debug, PartialEq, Eq, Hash)]
pub enum ExchangeFault {
    /// The link failed.
    Link,
    /// The head of the response is malformed.
    Head,
    /// 16,384 bytes hold no whole head.
    HeadLimit,
    /// The status, which is not 200.
    Status(u16),
    /// The head gives neither a length alone nor the one encoding `chunked` alone.
    NoLength,
    /// The body has so many bytes, more than 201,326,592.
    BodyLimit(u64),
    /// The session ended before the response did.
    Cut,
    /// A digest is needed, and none is given.
    NoDigest,
    /// The SHA-256 of the body, and the digest that the head gives.
    Digest { got: [u8; 32], given: [u8; 32] },
    /// The chunk of this number, counted from 1, is wrong.
    Chunk(u64),
}
