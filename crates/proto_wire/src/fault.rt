use thiserror::Error;

/// What is wrong with bytes that are no fields. Each has the place, from 0, of the byte with which the
/// field begins.
#[derive(Clone, Copy, Debug, PartialEq, Eq, Error)]
pub enum WireFault {
    /// The bytes end before the field does.
    #[error("the field at byte {0} is cut off")]
    Cut(usize),
    /// A varint has more than ten bytes, or its number is not below 2 ^ 64.
    #[error("a varint of the field at byte {0} is too long")]
    LongVarint(usize),
    /// The wire type is not 0, 1, 2 or 5.
    #[error("the field at byte {0} has another wire type")]
    WireType(usize),
    /// The number of the field is not 1 to 536,870,911.
    #[error("the field at byte {0} has no field number")]
    FieldNumber(usize),
}
