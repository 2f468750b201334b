ghost use Rattle.std.specs.Prelude.{◌≡◌, ◌≤◌, [], length, IfOk};

use crate::{Term, Why};
use std::io::{ErrorKind, Read, Write};
use std::net::{Net, TcpStream, ToSocketAddrs};
use std::{io, time};

/// A connection to the first of some addresses that answers, within a term. A host's name is looked up first, which has
/// no limit of time.
pub fn connect_within<R: Net<Stream = TcpStream> + time::Clock, A: ToSocketAddrs>(
    rt: &R,
    address: A,
    term: Term,
) -> io::Result<TcpStream> {
    let mut last = io::Error::from(ErrorKind::TimedOut);
    for addr in address.to_socket_addrs(rt)? {
        let Some(left) = term.left(rt) else {
            break;
        };
        match TcpStream::connect_timeout(rt, &addr, left) {
            Ok(stream) => {
                stream.set_nodelay(true)?;
                return Ok(stream);
            }
            Err(e) => last = e,
        }
    }
    Err(last)
}

// a call whose time is up says that it would block
fn not_read(error: io::Error) -> Why {
    match error.kind() {
        ErrorKind::WouldBlock => Why::refusal("has sent nothing within its time"),
        _ => Why::system("cannot be read", error),
    }
}

fn not_written(error: io::Error) -> Why {
    match error.kind() {
        ErrorKind::WouldBlock => Why::refusal("has taken nothing within its time"),
        _ => Why::system("cannot be written", error),
    }
}

/// One read within the term. If it is interrupted, it is made again.
pub fn read_within(
    rt: &impl time::Clock,
    stream: &mut TcpStream,
    term: Term,
    buffer: &mut [u8],
) -> Result<usize, Why>
    ensures { IfOk result (λ n. n ≤ length buffer.new) }
{
    for _ in 0..u64::MAX {
        let left = term.left(rt);
        if left.is_none() {
            return Err(Why::refusal("has sent nothing within its time"));
        }
        if let Err(e) = stream.set_read_timeout(left) {
            return Err(not_read(e));
        }
        match stream.read(buffer) {
            Ok(n) => return Ok(n),
            Err(e) if e.kind() == ErrorKind::Interrupted => {}
            Err(e) => return Err(not_read(e)),
        }
    }
    Err(Why::refusal("interrupts each read"))
}

/// One write within the term. If it is interrupted, it is made again. One that takes no byte of a piece that has
/// some fails.
pub(crate) fn write_within(
    rt: &impl time::Clock,
    stream: &mut TcpStream,
    term: Term,
    piece: &[u8],
) -> Result<usize, Why>
    ensures within { IfOk result (λ n. n ≤ length piece.now) }
    ensures some { IfOk result (λ n. n ≡ 0 → piece.now ≡ []) }
{
    for _ in 0..u64::MAX {
        let left = term.left(rt);
        if left.is_none() {
            return Err(Why::refusal("has taken nothing within its time"));
        }
        if let Err(e) = stream.set_write_timeout(left) {
            return Err(not_written(e));
        }
        match stream.write(piece) {
            Ok(0) if !piece.is_empty() => return Err(Why::refusal("takes no byte")),
            Ok(n) => return Ok(n),
            Err(e) if e.kind() == ErrorKind::Interrupted => {}
            Err(e) => return Err(not_written(e)),
        }
    }
    Err(Why::refusal("interrupts each write"))
}

/// Writes a whole piece within the term.
pub fn send_within(
    rt: &impl time::Clock,
    stream: &mut TcpStream,
    term: Term,
    piece: &[u8],
) -> Result<(), Why> {
    let mut rest = piece;
    while !rest.is_empty() {
        let count = write_within(rt, stream, term, rest)?;
        rest = &rest[count..];
    }
    Ok(())
}
