use crate::numbered::{BAD, GOOD, HEAD, PIECE, answer_tag, difference, fill_piece, piece_of};
use std::io::{self, ErrorKind, Read, Write};
use std::net::{Shutdown, SocketAddr, TcpStream};
use std::time::Duration;

/// How long a peer waits for what is to come, in milliseconds.
const PATIENCE: u64 = 30_000;

/// What one read brought.
#[derive(Clone, Copy, Debug, PartialEq, Eq)]
pub(crate) enum Came {
    Bytes,
    End,
    Fault,
}

/// A peer that has connected: its number, how many bytes of its body it has sent, the status that came, and how many bytes
/// came behind that and where they first differ from those of its number.
#[derive(Drop)]
pub(crate) struct Peer {
    stream: TcpStream,
    pub(crate) number: u8,
    sent: u64,
    // the number whose answer is to come
    pub(crate) answered_as: u8,
    status: Option<&'static str>,
    pub(crate) got: u64,
    pub(crate) differs: Option<u64>,
}

fn status_of(head: &[u8; HEAD]) -> &'static str {
    if head == GOOD {
        "200"
    } else if head == BAD {
        "400"
    } else {
        "other bytes"
    }
}

impl Peer {
    pub(crate) fn connect(rt: &HostRuntime, address: SocketAddr, number: u8) -> io::Result<Peer> {
        let stream = TcpStream::connect(rt, address)?;
        let mut peer = Peer {
            stream,
            number,
            sent: 0,
            answered_as: number,
            status: None,
            got: 0,
            differs: None,
        };
        match peer.wait_for(PATIENCE) {
            Ok(()) => Ok(peer),
            Err(e) => Err(e),
        }
    }

    /// How long it waits from now on, in milliseconds.
    fn wait_for(&mut self, millis: u64) -> io::Result<()> {
        self.stream
            .set_read_timeout(Some(Duration::from_millis(millis.max(1))))
    }

    pub(crate) fn write(&mut self, bytes: &[u8]) -> io::Result<()> {
        self.stream.write_all(bytes)
    }

    /// Writes the next bytes of its body, at most a piece, and says how many.
    fn write_piece(&mut self, left: u64) -> io::Result<u64> {
        let mut piece = [0; PIECE];
        let count = piece_of(left);
        fill_piece(&mut piece[..count], self.number, self.sent);
        self.stream.write_all(&piece[..count])?;
        self.sent = self.sent.saturating_add(count as u64);
        Ok(count as u64)
    }

    /// Writes so many bytes more of its body.
    pub(crate) fn fill(&mut self, count: u64) -> io::Result<()> {
        let mut left = count;
        for _ in 0..count {
            if left == 0 {
                break;
            }
            let written = self.write_piece(left)?;
            left = left.saturating_sub(written);
        }
        Ok(())
    }

    /// Writes no more.
    pub(crate) fn half(&mut self) -> io::Result<()> {
        self.stream.shutdown(Shutdown::Write)
    }

    /// The status of its answer, or what came in its place.
    pub(crate) fn status(&mut self) -> &'static str {
        if let Some(status) = self.status {
            return status;
        }
        let mut head = [0; HEAD];
        match self.stream.read_exact(&mut head) {
            Ok(()) => {
                let status = status_of(&head);
                self.status = Some(status);
                status
            }
            Err(e) if e.kind() == ErrorKind::UnexpectedEof => "closed",
            Err(_) => "fault",
        }
    }

    /// Compares what came with what was to come.
    fn compare(&mut self, piece: &[u8]) {
        if self.differs.is_none() {
            self.differs = difference(piece, answer_tag(self.answered_as), self.got);
        }
        self.got = self.got.saturating_add(piece.len() as u64);
    }

    /// Reads once.
    pub(crate) fn read_once(&mut self) -> Came {
        let mut piece = [0; PIECE];
        match self.stream.read(&mut piece) {
            Ok(0) => Came::End,
            Ok(count) => {
                self.compare(&piece[..count]);
                Came::Bytes
            }
            Err(_) => Came::Fault,
        }
    }

    /// Reads so many pieces, and says how that ended.
    pub(crate) fn read_some(&mut self, pieces: u64) -> Came {
        for _ in 0..pieces {
            match self.read_once() {
                Came::Bytes => {}
                other => return other,
            }
        }
        Came::Bytes
    }

    /// Reads its answer to its end, and says how that ended.
    pub(crate) fn read_rest(&mut self) -> Came {
        self.status();
        self.read_some(u64::MAX)
    }

    /// Reads what comes within so many milliseconds of the last that came.
    pub(crate) fn read_within(&mut self, millis: u64, pieces: u64) -> Came {
        if self.wait_for(millis).is_err() {
            return Came::Fault;
        }
        let came = self.read_some(pieces);
        match self.wait_for(PATIENCE) {
            Ok(()) => came,
            Err(_) => Came::Fault,
        }
    }

    /// Reads at most so many pieces of what came already.
    pub(crate) fn read_bit(&mut self, pieces: u64) {
        self.status();
        self.read_within(20, pieces);
    }

    /// Reads one byte of what came, so that what is behind it is never read.
    pub(crate) fn taste(&mut self) -> bool {
        matches!(self.stream.read(&mut [0; 1]), Ok(1))
    }
}
