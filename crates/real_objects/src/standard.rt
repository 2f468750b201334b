ghost use Rattle.std.specs.Prelude.{◌≡◌, ℕ, ◌<◌, ◌≤◌, List, [], length, take, Option, None, Some, IsNone, IsErr, IfOk, OnOk, OnErr};
ghost use Rattle.std.specs.Io.KnownBytes.{Keeps, ReadConsumes, WriteAppends};
ghost use Rattle.sb_outside.specs.Outside.{Rose, GivesFront, AnswersEnd, no_sink, no_source, appended};
ghost use Rattle.real_objects.specs.Standard.{known_of};

use crate::Why;
use sb_outside::{Failed, Sink, Source};
use std::io;
use std::io::{Error, ErrorKind, Read, Write};
use std::marker::Model;

/// A source over any reader of the standard library. It tells nothing of what is left. Contracts see it as
/// the reader and the count of faults.
#[derive(Drop)]
pub struct StdSource<R> {
    reader: Option<R>,
    faults: u64,
    why: Option<Why>,
}

impl<R> Model for StdSource<R> {
    ghost Value = { Option R × ℕ };

    ghost view = { λ s. (s.reader, s.faults) };
}

impl<R> StdSource<R> {
    pub fn new(reader: R) -> Self
        ensures { result ≡ (Some reader, 0) }
    {
        StdSource {
            reader: Some(reader),
            faults: 0,
            why: None,
        }
    }

    /// A source whose reader could not be had, as of a file that cannot be opened. Each read fails.
    pub fn unusable() -> Self
        ensures { result ≡ (None, 0) }
    {
        StdSource {
            reader: None,
            faults: 0,
            why: None,
        }
    }

    /// How many reads failed.
    pub fn faults(&self) -> u64
        ensures { result ≡ self.now.1 }
    {
        self.faults
    }

    /// Why the last of them did.
    pub fn why(&self) -> Option<Why> {
        self.why
    }
}

/// One read. If it is interrupted, it is made again.
pub(crate) fn read_again<R: Read>(reader: &mut R, buffer: &mut [u8]) -> io::Result<usize>
    ensures within { IfOk result (λ n. n ≤ length buffer.new) }
    ensures known { ReadConsumes (R.remaining reader.old) (R.remaining reader.new) result buffer.new }
{
    for _ in 0..u64::MAX {
        match reader.read(buffer) {
            Ok(n) => return Ok(n),
            Err(e) if e.kind() == ErrorKind::Interrupted => {}
            Err(error) => return Err(error),
        }
    }
    Err(Error::from(ErrorKind::Interrupted))
}

impl<R: Read> Source for StdSource<R> {
    ghost faults = { λ s. s.1 };

    ghost left = { λ _. None };

    /// A read that is interrupted is made again.
    fn read(&mut self, buffer: &mut [u8]) -> Result<usize, Failed>
        // Where the reader tells what it has left, these bytes were taken from it, and an end is an end.
        ensures known { ReadConsumes (known_of R.remaining self.old) (known_of R.remaining self.new) result buffer.new }
        ensures unusable { IsNone self.old.0 → IsErr result }
        ensures stays_unusable { IsNone self.old.0 → IsNone self.new.0 }

        ensures within { IfOk result (λ n. n ≤ length buffer.new) }
        ensures kept { OnOk result (self.new.1 ≡ self.old.1) }
        ensures counted { self.old.1 ≤ self.new.1 }
        ensures failed { OnErr result (Rose self.old.1 self.new.1) }
        ensures bytes { IfOk result (λ n. 0 < n → GivesFront (take n buffer.new) None None) }
        ensures end { IfOk result (λ n. n ≡ 0 → 0 < length buffer.new → AnswersEnd None None) }
    {
        if let Some(reader) = &mut self.reader {
            match read_again(reader, buffer) {
                Ok(n) => return Ok(n),
                Err(e) => self.why = Some(Why::system("cannot be read", e)),
            }
        }
        self.faults = self.faults.saturating_add(1);
        Err(Failed)
    }
}

/// A sink over any writer of the standard library. It tells nothing of the bytes. Contracts see it as the
/// writer and the count of faults.
#[derive(Drop)]
pub struct StdSink<W> {
    writer: Option<W>,
    faults: u64,
    why: Option<Why>,
}

impl<W> Model for StdSink<W> {
    ghost Value = { Option W × ℕ };

    ghost view = { λ s. (s.writer, s.faults) };
}

impl<W> StdSink<W> {
    pub fn new(writer: W) -> Self
        ensures { result ≡ (Some writer, 0) }
    {
        StdSink {
            writer: Some(writer),
            faults: 0,
            why: None,
        }
    }

    /// A sink whose writer could not be had. Each write and each flush fails.
    pub fn unusable() -> Self
        ensures { result ≡ (None, 0) }
    {
        StdSink {
            writer: None,
            faults: 0,
            why: None,
        }
    }

    /// How many writes and flushes failed.
    pub fn faults(&self) -> u64
        ensures { result ≡ self.now.1 }
    {
        self.faults
    }

    /// Why the last of them did.
    pub fn why(&self) -> Option<Why> {
        self.why
    }
}

impl<W: Write> StdSink<W> {
    /// Has the writer hand on what it holds back. A failure is a fault.
    pub fn flush(&mut self) -> Result<(), Failed>
        ensures known { Keeps (known_of W.contents self.old) (known_of W.contents self.new) }
        ensures unusable { IsNone self.old.0 → IsErr result }
        ensures stays_unusable { IsNone self.old.0 → IsNone self.new.0 }
        ensures kept { OnOk result (self.new.1 ≡ self.old.1) }
        ensures counted { self.old.1 ≤ self.new.1 }
        ensures failed { OnErr result (Rose self.old.1 self.new.1) }
    {
        if let Some(writer) = &mut self.writer {
            match writer.flush() {
                Ok(()) => return Ok(()),
                Err(e) => self.why = Some(Why::system("cannot be written", e)),
            }
        }
        self.faults = self.faults.saturating_add(1);
        Err(Failed)
    }
}

/// One write. If it is interrupted, it is made again. One that takes no byte of a piece that has some fails.
fn write_again<W: Write>(writer: &mut W, piece: &[u8]) -> io::Result<usize>
    ensures within { IfOk result (λ n. n ≤ length piece.now) }
    ensures some { IfOk result (λ n. n ≡ 0 → piece.now ≡ []) }
    ensures known { WriteAppends (W.contents writer.old) (W.contents writer.new) result piece.now }
{
    for _ in 0..u64::MAX {
        match writer.write(piece) {
            Ok(0) if !piece.is_empty() => return Err(Error::from(ErrorKind::WriteZero)),
            Ok(n) => return Ok(n),
            Err(e) if e.kind() == ErrorKind::Interrupted => {}
            Err(e) => return Err(e),
        }
    }
    Err(Error::from(ErrorKind::Interrupted))
}

impl<W: Write> Sink for StdSink<W> {
    ghost faults = { λ s. s.1 };

    ghost contents = { λ _. None };

    /// A write that is interrupted is made again. One that takes no byte of a piece that has some is
    /// a fault.
    fn write(&mut self, piece: &[u8]) -> Result<usize, Failed>
        // Where the writer tells what it holds, it holds these bytes after those before.
        ensures known { WriteAppends (known_of W.contents self.old) (known_of W.contents self.new) result piece.now }
        ensures unusable { IsNone self.old.0 → IsErr result }
        ensures stays_unusable { IsNone self.old.0 → IsNone self.new.0 }

        ensures within { IfOk result (λ n. n ≤ length piece.now) }
        ensures some { IfOk result (λ n. n ≡ 0 → piece.now ≡ []) }
        ensures kept { OnOk result (self.new.1 ≡ self.old.1) }
        ensures counted { self.old.1 ≤ self.new.1 }
        ensures failed { OnErr result (Rose self.old.1 self.new.1) }
        ensures bytes { IfOk result (λ n. None ≡ appended None (take n piece.now)) }
    {
        if let Some(writer) = &mut self.writer {
            match write_again(writer, piece) {
                Ok(n) => return Ok(n),
                Err(e) => self.why = Some(Why::system("cannot be written", e)),
            }
        }
        self.faults = self.faults.saturating_add(1);
        Err(Failed)
    }
}
