ghost use Rattle.std.specs.Prelude.{◌≡◌, ◌≤◌, [], length, drop, Some, None, IfOk, OnOk, OnErr};
ghost use Rattle.gathering.specs.Deadlines.{moment};
ghost use Rattle.gathering.specs.Wires.{all_left, own_left};
ghost use Rattle.tcp_door.specs.Guests.{gathered_with, left_of, IsLeftAfterTry, IsSettled};

use gathering::{Address, Candidate, Ending, Gathered, Heard, InLine, Outgoing, Phase, Sent};
use mio::event::Event;
use mio::net::TcpStream;
use mio::{Interest, Registry, Token};
use sb_model::OutOfMemory;
use std::io::{self, ErrorKind, Read, Write};

/// How many pieces of an answer are written in one turn.
const PIECES_A_TURN: usize = 16;

/// What the system reports of a connection.
#[derive(Clone, Copy, Debug, PartialEq, Eq)]
pub(crate) enum Watch {
    /// Nothing yet.
    Nothing,
    /// That its peer has sent something, or sends no more.
    Reads,
    /// That too, and that the system takes more of its answer.
    All,
}

/// One connection.
#[derive(Drop)]
pub(crate) struct Guest {
    pub(crate) stream: TcpStream,
    pub(crate) serial: u64,
    pub(crate) address: Address,
    pub(crate) phase: Phase,
    // since when it has its turn, in nanoseconds of all the time that passed
    // what its peer has sent so far, while its request is gathered, and until it is handed out
    pub(crate) gathered: Option<Gathered>,
    // how many of these bytes count among all that are gathered
    pub(crate) held: u64,
    // what a read answers after them
    pub(crate) ending: Ending,
    // what of its answer is not yet sent
    pub(crate) answer: Option<Outgoing>,
    // whether its peer sends no more
    pub(crate) has_ended: bool,
    // whether a read, or a write, may bring something
    pub(crate) can_read: bool,
    pub(crate) can_write: bool,
    // what the system reports of it
    pub(crate) watch: Watch,
    // whether it stands in the row of those that are ready
    pub(crate) is_in_row: bool,
}

/// Writes what the system takes of the bytes that are sent next, and says how many.
fn send_piece(stream: &mut TcpStream, answer: &mut Outgoing) -> io::Result<usize>
    ensures within { IfOk result (λ n. n ≤ length (all_left answer.old)) }
    ensures ok { IfOk result (λ n. all_left answer.new ≡ drop n (all_left answer.old)) }
    ensures err { OnErr result (answer.new ≡ answer.old) }
    ensures stream { stream.new ≡ stream.old }
{
    let front = answer.front();
    match stream.write(front) {
        Ok(count) => {
            answer.advance(count);
            Ok(count)
        }
        Err(e) => Err(e),
    }
}

/// Writes what the system takes of an answer, at most some pieces. Where it takes no more, there is no writing for now.
#[tactic(auto, using(crate::proofs::Sending::nothing_sent, crate::proofs::Sending::more_sent, crate::proofs::Sending::sent_till_fault))]
fn send_pieces(stream: &mut TcpStream, answer: &mut Outgoing, can_write: &mut bool) -> Sent
    ensures sent { IsLeftAfterTry (all_left answer.old) (all_left answer.new) result }
    ensures stream { stream.new ≡ stream.old }
{
    let mut taken = 0u64;
    'pieces: for _ in 0..PIECES_A_TURN {
        if answer.front().is_empty() {
            break;
        }
        match send_piece(stream, answer) {
            Ok(count) => taken = taken.saturating_add(count as u64),
            Err(e) if e.kind() == ErrorKind::Interrupted => break,
            Err(e) if e.kind() == ErrorKind::WouldBlock => {
                *can_write = false;
                break;
            }
            Err(_) => return Sent::Fault,
        }
    }
    Sent::Taken(taken)
}

/// Whether a connection waits for its turn, or has it.
pub(crate) fn is_held(phase: Phase) -> bool {
    matches!(phase, Phase::Decided { .. } | Phase::InTurn)
}

impl Guest {
    pub(crate) fn new(
        stream: TcpStream,
        address: Address,
        serial: u64,
        gathered: Gathered,
        now: u64,
    ) -> Guest
        ensures serial { result.serial ≡ serial }
        ensures gathered { result.gathered ≡ Some gathered }
        ensures answer { result.answer ≡ None }
    {
        Guest {
            stream,
            serial,
            address,
            phase: Phase::Gathering { since: now },
            gathered: Some(gathered),
            held: 0,
            ending: Ending::End,
            answer: None,
            has_ended: false,
            can_read: true,
            can_write: true,
            watch: Watch::Nothing,
            is_in_row: false,
        }
    }

    /// Whether a try of its socket may bring something.
    pub(crate) fn may_work(&self) -> bool {
        match self.phase {
            Phase::Gathering { .. } | Phase::Past { .. } => self.can_read,
            Phase::Sending { .. } => self.can_read || self.can_write,
            Phase::Decided { .. } | Phase::InTurn => false,
        }
    }

    /// Whether it waits for its turn, or has it.
    pub(crate) fn is_held(&self) -> bool {
        is_held(self.phase)
    }

    /// It stands in line since this moment.
    pub(crate) fn in_line(&self, slot: usize, since: u64) -> InLine {
        InLine {
            slot,
            serial: self.serial,
            address: self.address,
            since,
        }
    }

    /// It may give way in a full house.
    pub(crate) fn candidate(&self, slot: usize) -> Candidate {
        Candidate {
            slot,
            serial: self.serial,
            address: self.address,
            phase: self.phase,
        }
    }

    /// What the system has to report of it: once a read has found nothing, what its peer sends, and once a write was refused,
    /// that more is taken. One that waits for its turn is not waited for.
    fn wanted(&self) -> Watch {
        if self.is_held() {
            return self.watch;
        }
        if !self.can_write {
            return Watch::All;
        }
        if !self.can_read && self.watch == Watch::Nothing {
            return Watch::Reads;
        }
        self.watch
    }

    /// Has the system report what it has to, under a token. What is there already when this begins is reported too.
    pub(crate) fn be_watched(&mut self, registry: &Registry, token: Token) -> io::Result<()>
        ensures { IsSettled self.old self.new }
    {
        let wanted = self.wanted();
        if wanted == self.watch {
            return Ok(());
        }
        let interest = if wanted == Watch::All {
            Interest::READABLE | Interest::WRITABLE
        } else {
            Interest::READABLE
        };
        if self.watch == Watch::Nothing {
            registry.register(&mut self.stream, token, interest)?;
        } else {
            registry.reregister(&mut self.stream, token, interest)?;
        }
        self.watch = wanted;
        Ok(())
    }

    /// Notes what the system reports of it.
    pub(crate) fn note(&mut self, event: &Event)
        ensures { self.new ≡ record self.old { can_read = self.new.can_read; can_write = self.new.can_write } }
    {
        let has_failed = event.is_error();
        let reads = event.is_readable() || event.is_read_closed() || has_failed;
        let writes = event.is_writable() || event.is_write_closed() || has_failed;
        self.can_read = self.can_read || reads;
        self.can_write = self.can_write || writes;
    }

    /// One read of the socket into the buffer.
    pub(crate) fn hear(&mut self, buffer: &mut [u8]) -> Heard
        ensures { self.new ≡ record self.old { has_ended = self.new.has_ended; can_read = self.new.can_read } }
    {
        if self.has_ended {
            self.can_read = false;
            return Heard::Nothing;
        }
        match self.stream.read(buffer) {
            Ok(0) => {
                self.has_ended = true;
                self.can_read = false;
                Heard::End
            }
            Ok(count) => Heard::Bytes(count as u64),
            Err(e) if e.kind() == ErrorKind::Interrupted => Heard::Nothing,
            Err(e) if e.kind() == ErrorKind::WouldBlock => {
                self.can_read = false;
                Heard::Nothing
            }
            Err(_) => {
                self.can_read = false;
                Heard::Fault
            }
        }
    }

    /// A look at the socket that reads nothing: whether the connection has failed. One whose peer only sends no more has not.
    pub(crate) fn look(&self) -> Heard {
        match self.stream.take_error() {
            Ok(None) => Heard::Nothing,
            Ok(Some(_)) | Err(_) => Heard::Fault,
        }
    }

    /// Takes what a read brought to what is gathered, and says whether it decides the request.
    pub(crate) fn gather(&mut self, piece: &[u8]) -> Result<bool, OutOfMemory>
        ensures ok { OnOk result (self.new ≡ record self.old { gathered = gathered_with self.old.gathered piece.now }) }
        ensures err { OnErr result (self.new ≡ self.old) }
    {
        match &mut self.gathered {
            Some(gathered) => {
                gathered.take(piece)?;
                Ok(gathered.is_decided())
            }
            None => Ok(false),
        }
    }

    /// Its answer is to be sent.
    pub(crate) fn begin_answer(&mut self, answer: Outgoing)
        ensures { self.new ≡ record self.old { answer = Some answer } }
    {
        self.answer = Some(answer);
    }

    /// How many bytes of its answer are left to send.
    pub(crate) fn left(&self) -> u64
        ensures { result ≡ moment (length (left_of self.now.answer)) }
    {
        match &self.answer {
            Some(answer) => answer.left(),
            None => 0,
        }
    }

    /// How many of them are its own, and not of a text that others share.
    pub(crate) fn owned(&self) -> u64 {
        match &self.answer {
            Some(answer) => answer.owned(),
            None => 0,
        }
    }

    /// Writes what the system takes of the answer, at most some pieces.
    pub(crate) fn send(&mut self) -> Sent
        ensures sent { IsLeftAfterTry (left_of self.old.answer) (left_of self.new.answer) result }
        ensures same { self.new ≡ record self.old { answer = self.new.answer; can_write = self.new.can_write } }
    {
        match &mut self.answer {
            Some(answer) => send_pieces(&mut self.stream, answer, &mut self.can_write),
            None => Sent::Taken(0),
        }
    }
}
