ghost use Rattle.std.specs.Prelude.{◌≡◌};

use rice_coding::RiceFault;
use sb_model::Bytes;

/// Why an update is refused. They are looked at in this order: `StaleBase`, `Rice`, `IndexRange`, `TooMany`, `TooLarge`, `Checksum`.
#[derive(Debug, PartialEq, Eq, Drop)]
pub enum UpdateFault {
    /// 1: a Rice record stands for no list of at most 1,048,576 values. It is never `RiceFault::OutOfMemory`.
    Rice(RiceFault),
    /// 2: the first place of a partial update that is not below the number of held prefixes, and this number.
    IndexRange { index: u32, len: u32 },
    /// 3: the candidate has this many prefixes, more than 1,048,576.
    TooMany(u64),
    /// 4: the candidate's prefixes have this many bytes, more than 8,388,608.
    TooLarge(u64),
    /// 5: the candidate's SHA-256 is not the given one.
    Checksum { computed: [u8; 32], given: [u8; 32] },
    /// 7: a partial update was made for another state than the held one.
    StaleBase { held: Bytes, given: Bytes },
}

/// What became of an update.
#[derive(Debug, PartialEq, Eq, Drop)]
pub enum ListResult {
    /// The list has so many prefixes now.
    Installed(u32),
    /// Token and prefixes stay.
    Refused(UpdateFault),
    /// No held list has the name.
    NotKept,
}

impl ListResult {
    ghost use Rattle.update_client.specs.Step.{is_installed, is_refused};

    /// Whether the update was installed.
    pub fn is_installed(&self) -> bool
        ensures { result ≡ is_installed self.now }
    {
        matches!(self, ListResult::Installed(_))
    }

    /// Whether the update was refused.
    pub fn is_refused(&self) -> bool
        ensures { result ≡ is_refused self.now }
    {
        matches!(self, ListResult::Refused(_))
    }
}
