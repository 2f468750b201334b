//! Steps with a source over a reader, and with a sink over a writer.
use crate::outcome::{Outcome, text};
use crate::scripts::{Reader, Script, Writer};
use crate::words::{cut, size_of};
use real_objects::{StdSink, StdSource};
use sb_model::{Bytes, OutOfMemory};
use sb_outside::{Failed, Sink, Source, write_all};
use std::alloc::Global;
use std::fs::File;

/// How many bytes a read asks for at most.
const MOST: usize = 64;

pub(crate) fn source_step(rt: &HostRuntime, source: &mut StdSource<Reader>, line: &str) -> Outcome {
    let (word, rest) = cut(line);
    match word.as_bytes() {
        b"open" => open(rt, source, rest),
        b"by" => read_by(rt.alloc(), source, rest),
        b"read" => read(rt.alloc(), source, size_of(rest)),
        b"faults" => Outcome::Number(source.faults()),
        _ => Outcome::NoStep,
    }
}

fn open(rt: &HostRuntime, source: &mut StdSource<Reader>, path: &str) -> Outcome {
    match File::open(rt, path) {
        Ok(file) => *source = StdSource::new(Reader::File(file)),
        Err(e) => return Outcome::Refused(e),
    }
    Outcome::Done
}

fn read_by(alloc: Global, source: &mut StdSource<Reader>, words: &str) -> Outcome {
    match Script::new(alloc, words) {
        Ok(script) => *source = StdSource::new(Reader::Script(script)),
        Err(OutOfMemory) => return Outcome::OutOfMemory,
    }
    Outcome::Done
}

fn read(alloc: Global, source: &mut StdSource<Reader>, count: usize) -> Outcome {
    let mut buffer = [0; MOST];
    match source.read(&mut buffer[..count.min(MOST)]) {
        Ok(given) => text(Bytes::from_slice(alloc, &buffer[..given])),
        Err(Failed) => Outcome::Cannot(source.why()),
    }
}

pub(crate) fn sink_step(rt: &HostRuntime, sink: &mut StdSink<Writer>, line: &str) -> Outcome {
    let (word, rest) = cut(line);
    match word.as_bytes() {
        b"make" => make(rt, sink, rest),
        b"by" => write_by(rt.alloc(), sink, rest),
        b"take" => take(sink, rest),
        b"write" => write(sink, rest),
        b"flush" => flush(sink),
        b"faults" => Outcome::Number(sink.faults()),
        b"gone" => let_go(sink),
        _ => Outcome::NoStep,
    }
}

fn let_go(sink: &mut StdSink<Writer>) -> Outcome {
    *sink = StdSink::unusable();
    Outcome::Done
}

fn make(rt: &HostRuntime, sink: &mut StdSink<Writer>, path: &str) -> Outcome {
    match File::create(rt, path) {
        Ok(file) => *sink = StdSink::new(Writer::File(file)),
        Err(e) => return Outcome::Refused(e),
    }
    Outcome::Done
}

fn write_by(alloc: Global, sink: &mut StdSink<Writer>, words: &str) -> Outcome {
    match Script::new(alloc, words) {
        Ok(script) => *sink = StdSink::new(Writer::Script(script)),
        Err(OutOfMemory) => return Outcome::OutOfMemory,
    }
    Outcome::Done
}

/// One write, and how many bytes it took.
fn take(sink: &mut StdSink<Writer>, piece: &str) -> Outcome {
    match sink.write(piece.as_bytes()) {
        Ok(count) => Outcome::Number(count as u64),
        Err(Failed) => Outcome::Cannot(sink.why()),
    }
}

fn write(sink: &mut StdSink<Writer>, piece: &str) -> Outcome {
    match write_all(sink, piece.as_bytes()) {
        Ok(()) => Outcome::Done,
        Err(Failed) => Outcome::Cannot(sink.why()),
    }
}

fn flush(sink: &mut StdSink<Writer>) -> Outcome {
    match sink.flush() {
        Ok(()) => Outcome::Done,
        Err(Failed) => Outcome::Cannot(sink.why()),
    }
}
