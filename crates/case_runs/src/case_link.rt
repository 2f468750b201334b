//! The link of a case.
ghost use Rattle.std.specs.Prelude.{◌≤◌, length, None, IfSome};
ghost use Rattle.sb_outside.specs.Outside.{Rose};

use crate::server::Server;
use case_texts::{Coming, Harm, Play, Reader};
use delta_server::Settings;
use list_versions::History;
use sb_model::{Bytes, Moment, OutOfMemory, Row};
use sb_outside::{Failed, Kind, Link};
use std::alloc::Global;
use std::collections::VecDeque;
use std::mem;

/// The session that is held.
#[derive(Drop)]
struct Held {
    coming: Coming,
    sent: Bytes,
    given: usize,
    has_response: bool,
    is_open: bool,
    calls: u64,
    // after how many asks more it is answered
    asks: u64,
}

/// Sessions that are played from a list.
#[derive(Drop)]
struct Plays {
    alloc: Global,
    server: Server,
    coming: VecDeque<Coming>,
    step: usize,
    held: Option<Held>,
    // the response of the session that is held, and those of the sessions before
    response: Bytes,
    earlier: Row<Bytes>,
    sent: Row<Bytes>,
    is_struck: bool,
}

/// A link whose sessions are played from a list. After the list `begin` fails. It tells nothing to contracts; what was
/// sent is asked of it afterwards.
#[derive(Drop)]
pub struct CaseLink {
    plays: Plays,
    faults: u64,
}

impl CaseLink {
    /// A link with these sessions, which gives at most so many bytes a call. The server has this history, and without one
    /// a session that it is to answer fails.
    pub fn new(
        alloc: Global,
        history: Option<History>,
        settings: Settings,
        coming: Row<Coming>,
        step: usize,
    ) -> Self {
        let plays = Plays {
            alloc,
            server: Server {
                alloc,
                history,
                settings,
                longest: 0,
            },
            coming: VecDeque::from(coming.into_vec()),
            step,
            held: None,
            response: Bytes::new(alloc),
            earlier: Row::new(alloc),
            sent: Row::new(alloc),
            is_struck: false,
        };
        CaseLink { plays, faults: 0 }
    }

    /// Takes what each session sent, in order.
    pub fn take_sent(&mut self, reader: &mut Reader) -> Row<Bytes> {
        let done = self.plays.retire();
        reader.faults.note(done);
        self.plays.take_sent()
    }

    /// Whether a call was made that an `each` lets fail.
    pub fn is_struck(&self) -> bool {
        self.plays.is_struck
    }

    /// How many bytes the longest response had of which each byte has a round.
    pub fn longest(&self) -> usize {
        self.plays.server.longest
    }

    fn fail(&mut self) -> Failed
        ensures counted { self.old.faults ≤ self.new.faults }
        ensures failed { Rose self.old.faults self.new.faults }
    {
        self.faults = self.faults.saturating_add(1);
        Failed
    }
}

impl Plays {
    fn take_sent(&mut self) -> Row<Bytes> {
        mem::replace(&mut self.sent, Row::new(self.alloc))
    }

    /// Puts what the last session sent to what those before it sent.
    fn retire(&mut self) -> Result<(), OutOfMemory> {
        match self.held.take() {
            Some(held) => self.put_away(held.into_sent()),
            None => Ok(()),
        }
    }

    /// Puts the response of the last session, and what it sent, to those of the sessions before.
    fn put_away(&mut self, sent: Bytes) -> Result<(), OutOfMemory> {
        let response = mem::replace(&mut self.response, Bytes::new(self.alloc));
        self.earlier.push(response)?;
        self.sent.push(sent)
    }

    /// Begins the next session, and says whether it does.
    fn begin(&mut self) -> bool {
        if self.retire().is_err() {
            return false;
        }
        match self.coming.pop_front() {
            Some(coming) => self.hold(coming),
            None => false,
        }
    }

    /// Begins a session, once the server's journal has gained what it gains before it.
    fn hold(&mut self, coming: Coming) -> bool {
        if !self.server.grow(&coming.gains) {
            return false;
        }
        let asks = coming.asks;
        self.held = Some(Held {
            coming,
            sent: Bytes::new(self.alloc),
            given: 0,
            has_response: false,
            is_open: true,
            calls: 0,
            asks,
        });
        self.call()
    }

    /// Counts a call of the session, and says whether it may do what it is asked.
    fn call(&mut self) -> bool {
        let Some(held) = &mut self.held else {
            return false;
        };
        let is_done = held.call();
        self.is_struck = self.is_struck || held.is_struck();
        is_done
    }

    /// Sends a piece in the session, and says whether it was sent.
    fn send(&mut self, piece: &[u8]) -> bool {
        if !self.call() {
            return false;
        }
        match &mut self.held {
            Some(held) => held.sent.append(piece).is_ok(),
            None => false,
        }
    }

    /// Has the response of the session, if it does not have it yet, and says whether it has one.
    fn respond(&mut self) -> bool {
        let Some(held) = &mut self.held else {
            return false;
        };
        if held.has_response {
            return true;
        }
        held.has_response = true;
        match &held.coming.play {
            Play::Gives(bytes) => Server::give(bytes.as_slice(), &mut self.response),
            Play::Serves(Harm::Again(back)) => {
                Server::give(nth_last(self.earlier.as_slice(), *back), &mut self.response)
            }
            Play::Serves(harm) => self.server.answer(&held.sent, *harm, &mut self.response),
            Play::ServesInstead(request) => {
                self.server
                    .answer(request, Harm::Nothing, &mut self.response)
            }
        }
    }

    /// Gives the next bytes of the response into the front of the buffer, and says how many.
    fn give(&mut self, buffer: &mut [u8]) -> Option<usize>
        ensures { IfSome result (λ n. n ≤ length buffer.new) }
    {
        if !self.call() || !self.respond() {
            return None;
        }
        let Some(held) = &mut self.held else {
            return None;
        };
        let count = copy_front(buffer, self.response.as_slice(), held.given, self.step);
        held.given = held.given.saturating_add(count);
        Some(count)
    }

    fn close(&mut self) {
        if let Some(held) = &mut self.held {
            held.is_open = false;
        }
    }

    /// Whether the session is answered, which it is after so many asks as it says.
    fn is_answered(&mut self) -> bool {
        match &mut self.held {
            Some(held) if held.asks > 0 => {
                held.asks -= 1;
                false
            }
            _ => true,
        }
    }
}

impl Held {
    fn into_sent(self) -> Bytes {
        let Self { sent, .. } = self;
        sent
    }

    /// Whether its last call is one that an `each` lets fail.
    fn is_struck(&self) -> bool {
        self.coming.has_each && self.coming.failing.as_slice().contains(&self.calls)
    }

    /// Counts a call, and says whether it may do what it is asked.
    fn call(&mut self) -> bool {
        self.calls = self.calls.saturating_add(1);
        let is_listed = self.coming.failing.as_slice().contains(&self.calls);
        self.is_open = self.is_open && (self.calls > 1 || !is_listed);
        self.is_open && !is_listed
    }
}

/// The last but so many of these texts, counted from 1, or nothing where there is none.
fn nth_last(texts: &[Bytes], back: usize) -> &[u8] {
    let Some(at) = texts.len().checked_sub(back) else {
        return &[];
    };
    match texts.get(at) {
        Some(text) => text.as_slice(),
        None => &[],
    }
}

/// Copies what stands from a place on into the front of the buffer, at most so many bytes, and says how many.
fn copy_front(buffer: &mut [u8], bytes: &[u8], from: usize, step: usize) -> usize
    ensures { result ≤ length buffer.new }
{
    let left = &bytes[from.min(bytes.len())..];
    let count = left.len().min(buffer.len()).min(step);
    buffer[..count].copy_from_slice(&left[..count]);
    count
}

impl Link for CaseLink {
    ghost faults = { λ s. s.faults };

    ghost log = { λ _. None };

    fn begin(&mut self, _at: Moment, _kind: Kind) -> Result<(), Failed> {
        if self.plays.begin() {
            return Ok(());
        }
        Err(self.fail())
    }

    fn send(&mut self, piece: &[u8]) -> Result<(), Failed> {
        if self.plays.send(piece) {
            return Ok(());
        }
        Err(self.fail())
    }

    fn is_answered(&mut self) -> bool {
        self.plays.is_answered()
    }

    fn recv(&mut self, buffer: &mut [u8]) -> Result<usize, Failed> {
        match self.plays.give(buffer) {
            Some(count) => Ok(count),
            None => Err(self.fail()),
        }
    }

    fn close(&mut self, _at: Moment) {
        self.plays.close();
    }
}
