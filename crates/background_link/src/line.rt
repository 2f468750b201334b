ghost use Rattle.std.specs.Prelude.{◌≡◌, ◌≤◌, length, None, IfOk, OnOk, OnErr};
ghost use Rattle.sb_outside.specs.Outside.{Rose};

use crate::answers::{Answer, End, no_memory};
use crate::talk::Talk;
use http_edge::receive_response;
use real_objects::{Term, Why, read_within, send_within};
use sb_model::{Bytes, Moment};
use sb_outside::{Failed, Kind, Link};
use std::alloc::Global;
use std::net::TcpStream;

/// How many bytes of a session are kept at most: the longest body that is taken, and 64 MiB for its head and the lines between
/// its chunks.
const MOST_HEARD: usize = 268_435_456;

/// The one session of a thread, as a link that keeps what it receives.
#[derive(Drop)]
pub(crate) struct Line<'a> {
    system: HostRuntime,
    stream: TcpStream,
    term: Term,
    talk: &'a Talk,
    heard: Bytes,
    end: End,
    faults: u64,
}

impl<'a> Line<'a> {
    pub(crate) fn new(
        system: HostRuntime,
        alloc: Global,
        stream: TcpStream,
        term: Term,
        talk: &'a Talk,
    ) -> Line<'a> {
        Line {
            system,
            stream,
            term,
            talk,
            heard: Bytes::new(alloc),
            end: End::Refused(Why::refusal("was read no further than its answer goes")),
            faults: 0,
        }
    }

    /// Sends a request and receives its response, no further than to what decides it.
    pub(crate) fn ask(self, alloc: Global, request: &[u8]) -> Answer {
        let mut line = self;
        if line.send(request).is_ok() && receive_response(alloc, &mut line, false).is_err() {
            line.end = End::Refused(no_memory());
        }
        Answer {
            heard: line.heard,
            end: line.end,
        }
    }
}

impl Line<'_> {
    /// Counts a call that failed, and keeps how the session ends.
    fn fail(&mut self, end: End) -> Failed
        ensures rose { Rose self.old.faults self.new.faults }
        ensures counted { self.old.faults ≤ self.new.faults }
    {
        self.faults = self.faults.saturating_add(1);
        self.end = end;
        Failed
    }

    /// Keeps the next bytes, where there are not too many.
    fn keep(&mut self, piece: &[u8]) -> Result<usize, Failed>
        ensures all { IfOk result (λ n. n ≡ length piece.now) }
        ensures kept { OnOk result (self.new.faults ≡ self.old.faults) }
        ensures counted { self.old.faults ≤ self.new.faults }
        ensures failed { OnErr result (Rose self.old.faults self.new.faults) }
    {
        if self.heard.len() > MOST_HEARD {
            return Err(self.fail(End::Lost(Why::refusal("sends more than a response has"))));
        }
        match self.heard.append(piece) {
            Ok(()) => Ok(piece.len()),
            Err(_) => Err(self.fail(End::Refused(no_memory()))),
        }
    }

    /// One read.
    fn read(&mut self, buffer: &mut [u8]) -> Result<usize, Why>
        ensures within { IfOk result (λ n. n ≤ length buffer.new) }
        ensures kept { self.new.faults ≡ self.old.faults }
    {
        if self.talk.is_let_go() {
            return Err(Why::refusal("is no longer waited for"));
        }
        read_within(&self.system, &mut self.stream, self.term, buffer)
    }
}

impl Link for Line<'_> {
    ghost faults = { λ s. s.faults };

    ghost log = { λ _. None };

    /// Its session has begun.
    fn begin(&mut self, _at: Moment, _kind: Kind) -> Result<(), Failed> {
        Err(self.fail(End::Refused(Why::refusal("has one session alone"))))
    }

    fn send(&mut self, piece: &[u8]) -> Result<(), Failed> {
        match send_within(&self.system, &mut self.stream, self.term, piece) {
            Ok(()) => Ok(()),
            Err(why) => Err(self.fail(End::Lost(why))),
        }
    }

    fn is_answered(&mut self) -> bool {
        true
    }

    fn recv(&mut self, buffer: &mut [u8]) -> Result<usize, Failed> {
        match self.read(buffer) {
            Ok(0) => {
                self.end = End::Ended;
                Ok(0)
            }
            Ok(count) => self.keep(&buffer[..count]),
            Err(why) => Err(self.fail(End::Lost(why))),
        }
    }

    fn close(&mut self, _at: Moment) {}
}
