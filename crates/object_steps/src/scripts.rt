//! Readers and writers that are files, or whose calls go by a list.
use crate::words::size_of;
use sb_model::{OutOfMemory, Row};
use std::alloc::Global;
use std::fs::File;
use std::io::{self, ErrorKind, Read, Write};

/// What the calls come to, and how many were made: how many bytes a call gives or takes, or how it fails.
#[derive(Drop)]
pub(crate) struct Script {
    calls: Row<Result<usize, ErrorKind>>,
    made: usize,
}

/// One call of a script by its word.
fn call_of(word: &str) -> Result<usize, ErrorKind> {
    match word.as_bytes() {
        b"interrupted" => Err(ErrorKind::Interrupted),
        b"reset" => Err(ErrorKind::ConnectionReset),
        b"broken" => Err(ErrorKind::BrokenPipe),
        _ => Ok(size_of(word)),
    }
}

impl Script {
    pub(crate) fn new(alloc: Global, words: &str) -> Result<Script, OutOfMemory> {
        let mut calls = Row::new(alloc);
        for word in words.split(' ') {
            calls.push(call_of(word))?;
        }
        Ok(Script { calls, made: 0 })
    }

    /// Whether all calls were made.
    fn is_over(&self) -> bool {
        self.made >= self.calls.len()
    }

    /// What the next call comes to: 0 where all were made.
    fn next(&mut self) -> io::Result<usize> {
        let call = match self.calls.as_slice().get(self.made) {
            Some(call) => *call,
            None => Ok(0),
        };
        self.made = self.made.saturating_add(1);
        match call {
            Ok(count) => Ok(count),
            Err(kind) => Err(io::Error::from(kind)),
        }
    }
}

#[derive(Drop)]
pub(crate) enum Reader {
    File(File),
    /// It gives an `x` for each byte, and is at its end after the script.
    Script(Script),
}

impl Read for Reader {
    fn read(&mut self, buffer: &mut [u8]) -> io::Result<usize> {
        match self {
            Reader::File(file) => file.read(buffer),
            Reader::Script(script) => {
                let count = script.next()?.min(buffer.len());
                for byte in &mut buffer[..count] {
                    *byte = b'x';
                }
                Ok(count)
            }
        }
    }
}

#[derive(Drop)]
pub(crate) enum Writer {
    File(File),
    /// After the script it takes nothing, and cannot be flushed.
    Script(Script),
}

impl Write for Writer {
    fn write(&mut self, piece: &[u8]) -> io::Result<usize> {
        match self {
            Writer::File(file) => file.write(piece),
            Writer::Script(script) => Ok(script.next()?.min(piece.len())),
        }
    }

    fn flush(&mut self) -> io::Result<()> {
        match self {
            Writer::File(file) => file.flush(),
            Writer::Script(script) if script.is_over() => {
                Err(io::Error::from(ErrorKind::StorageFull))
            }
            Writer::Script(_) => Ok(()),
        }
    }
}
