use sb_model::Bytes;

/// A list of rising numbers of 32 bits, as the codes of their differences: the fields `firstValue`,
/// `riceParameter`, `numEntries` and `encodedData` of `RiceDeltaEncoding`.
///
/// The code of a difference d with the parameter k is `d >> k` ones, a zero, and the low k bits of
/// d, the lowest first. Bits fill each byte from its lowest bit upward. Not every record stands for
/// a list.
#[derive(Debug, Drop)]
pub struct RiceRecord {
    /// The first number. A record that stands for a list has at most 4,294,967,295 here.
    pub first: u64,
    /// How many low bits of a difference stand as they are: 2 to 28, and anything where `count` is 0.
    pub parameter: u32,
    /// How many differences are coded. There is one number more.
    pub count: u32,
    /// The codes. Fewer than 8 bits are free after the last one.
    pub coded: Bytes,
}
