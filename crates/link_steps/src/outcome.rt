//! What comes of a step, and how it is printed.
use real_objects::Why;
use sb_model::{Bytes, OutOfMemory};
use std::io;

#[derive(Drop)]
pub(crate) enum Outcome {
    Done,
    Word(&'static str),
    Number(u64),
    /// Words that were put together.
    Text(Bytes),
    /// Bytes that came.
    Given(Bytes),
    /// What came of one exchange over each of two links.
    Two(Bytes, Bytes),
    /// An object failed, and says why if it can.
    Cannot(Option<Why>),
    /// The system refused it.
    Refused(io::Error),
    OutOfMemory,
    /// The line is no step.
    NoStep,
}

/// Whether something holds, in words.
pub(crate) fn truth(holds: bool) -> Outcome {
    Outcome::Word(if holds { "yes" } else { "no" })
}

/// What comes of a call of the system that answers nothing.
pub(crate) fn done(given: io::Result<()>) -> Outcome {
    match given {
        Ok(()) => Outcome::Done,
        Err(e) => Outcome::Refused(e),
    }
}

/// Bytes that came, if there was memory for them.
pub(crate) fn given(bytes: Result<Bytes, OutOfMemory>) -> Outcome {
    match bytes {
        Ok(bytes) => Outcome::Given(bytes),
        Err(OutOfMemory) => Outcome::OutOfMemory,
    }
}

/// A text that is shown.
fn shown(bytes: &Bytes) -> &str {
    std::str::from_utf8(bytes.as_slice()).unwrap_or("other bytes")
}

/// Prints a step and what came of it.
pub(crate) fn say(rt: &HostRuntime, line: &str, outcome: &Outcome) {
    let _ = match outcome {
        Outcome::Done => println!(rt; "{line} => done"),
        Outcome::Word(word) => println!(rt; "{line} => {word}"),
        Outcome::Number(number) => println!(rt; "{line} => {number}"),
        Outcome::Text(bytes) => println!(rt; "{line} => {}", shown(bytes)),
        Outcome::Given(bytes) => println!(rt; "{line} => {:?}", shown(bytes)),
        Outcome::Two(one, two) => println!(rt; "{line} => {} | {}", shown(one), shown(two)),
        Outcome::Cannot(Some(why)) => println!(rt; "{line} => cannot: {why}"),
        Outcome::Cannot(None) => println!(rt; "{line} => cannot"),
        Outcome::Refused(e) => println!(rt; "{line} => cannot: {e}"),
        Outcome::OutOfMemory => println!(rt; "{line} => out of memory"),
        Outcome::NoStep => println!(rt; "{line} => no step"),
    };
}
