//! What comes of a step, and how it is printed.
use real_objects::Why;
use sb_model::{Bytes, OutOfMemory};
use std::io;

/// How long a text may be that is printed as it stands.
const SHOWN: usize = 60;

#[derive(Drop)]
pub(crate) enum Outcome {
    Done,
    Word(&'static str),
    Number(u64),
    Text(Bytes),
    /// An object failed, and says why if it can.
    Cannot(Option<Why>),
    /// The system refused it.
    Refused(io::Error),
    OutOfMemory,
    /// The line is no step.
    NoStep,
}

/// What comes of a call of the system that answers nothing.
pub(crate) fn done(given: io::Result<()>) -> Outcome {
    match given {
        Ok(()) => Outcome::Done,
        Err(e) => Outcome::Refused(e),
    }
}

/// A text, if there was memory for it.
pub(crate) fn text(given: Result<Bytes, OutOfMemory>) -> Outcome {
    match given {
        Ok(text) => Outcome::Text(text),
        Err(OutOfMemory) => Outcome::OutOfMemory,
    }
}

/// A text that is printed whole.
fn is_shown(bytes: &[u8]) -> Option<&str> {
    if bytes.len() > SHOWN {
        return None;
    }
    std::str::from_utf8(bytes).ok()
}

/// The byte that a long text has everywhere.
fn only_byte(bytes: &[u8]) -> Option<char> {
    let first = *bytes.first()?;
    if bytes.iter().all(|byte| *byte == first) {
        return Some(char::from(first));
    }
    None
}

fn say_text(rt: &HostRuntime, line: &str, bytes: &[u8]) -> io::Result<()> {
    let count = bytes.len();
    if let Some(text) = is_shown(bytes) {
        return println!(rt; "{line} => \"{text}\"");
    }
    match only_byte(bytes) {
        Some(byte) => println!(rt; "{line} => {count} times {byte}"),
        None => println!(rt; "{line} => {count} bytes"),
    }
}

/// Prints a step and what came of it.
pub(crate) fn say(rt: &HostRuntime, line: &str, outcome: &Outcome) {
    let _ = match outcome {
        Outcome::Done => println!(rt; "{line} => done"),
        Outcome::Word(word) => println!(rt; "{line} => {word}"),
        Outcome::Number(number) => println!(rt; "{line} => {number}"),
        Outcome::Text(bytes) => say_text(rt, line, bytes.as_slice()),
        Outcome::Cannot(Some(why)) => println!(rt; "{line} => cannot: {why}"),
        Outcome::Cannot(None) => println!(rt; "{line} => cannot"),
        Outcome::Refused(e) => println!(rt; "{line} => cannot: {e}"),
        Outcome::OutOfMemory => println!(rt; "{line} => out of memory"),
        Outcome::NoStep => println!(rt; "{line} => no step"),
    };
}
