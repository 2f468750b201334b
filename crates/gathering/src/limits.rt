ghost use Rattle.std.specs.Prelude.{◌≡◌, ◌/◌};

/// How many connections a door keeps open, and how long and how much each may take. Times are in milliseconds of the door's
/// clock, on which each stretch between two looks at it counts, up to a second of it.
#[derive(Clone, Copy, Debug, PartialEq, Eq, Hash)]
pub struct DoorLimits {
    /// How many connections are open at most.
    pub connections: usize,
    /// The longest time of a request, from its coming.
    pub request: u64,
    /// The longest time for which a request that is decided waits for its turn.
    pub turn: u64,
    /// The longest time of an answer without a byte that the system took.
    pub stall: u64,
    /// The longest time of an answer in all, of which no byte was taken.
    pub answer: u64,
    /// A second more for each so many bytes that were taken. 0 counts as 1.
    pub bytes_a_second: u64,
    /// Past the answer, how long and how many bytes are read and forgotten.
    pub rest: u64,
    pub rest_bytes: u64,
    /// How many bytes are gathered of all requests.
    pub gathered_bytes: u64,
    /// How many bytes of all answers wait to be taken. A text that several answers share counts once.
    pub answer_bytes: u64,
    /// The longest time that the end of a door takes.
    pub finish: u64,
}

impl DoorLimits {
    /// 1,024 connections; 60 seconds for a request, and 30 until its turn; for an answer 60 seconds without a byte, and in all
    /// 60 seconds and one more for each 100,000 bytes; past it 5 seconds or 1,048,576 bytes; 256 MiB of requests and 512 MiB
    /// of answers; 10 seconds for an end.
    pub const STANDARD: DoorLimits = DoorLimits {
        connections: 1_024,
        request: 60_000,
        turn: 30_000,
        stall: 60_000,
        answer: 60_000,
        bytes_a_second: 100_000,
        rest: 5_000,
        rest_bytes: 1_048_576,
        gathered_bytes: 268_435_456,
        answer_bytes: 536_870_912,
        finish: 10_000,
    };
}

impl DoorLimits {
    /// How many connections whoever takes them may put off at most, beside the one that he works at: a quarter of those that are
    /// open at most. One that is handed out has no deadline and never gives way, so the others need room.
    pub fn most_put_off(&self) -> usize
        ensures { result ≡ self.now.connections / 4 }
    {
        self.connections / 4
    }
}

impl Default for DoorLimits {
    fn default() -> DoorLimits {
        DoorLimits::STANDARD
    }
}
