//! A peer that goes by a script.
use crate::stage::PATIENCE;
use crate::words::{bytes_of, number_of};
use sb_model::{Bytes, OutOfMemory};
use std::alloc::Global;
use std::io::{self, Read, Write};
use std::net::{TcpListener, TcpStream};
use std::thread;
use std::time::Duration;

/// How many bytes are written or read at once.
const PIECE: usize = 65_536;

/// What each request ends with.
pub(crate) const BODY: &[u8] = b"{}";

/// Takes the next connection at a port, and goes by a script, where there is one. Then the connection is let go.
pub(crate) fn play(rt: HostRuntime, alloc: Global, port: Option<&TcpListener>, script: &str) {
    if script.is_empty() {
        return;
    }
    if let Some(port) = port
        && let Ok((peer, _from)) = port.accept()
    {
        let _ = perform(rt, alloc, peer, script);
    }
}

fn perform(rt: HostRuntime, alloc: Global, peer: TcpStream, script: &str) -> io::Result<()> {
    let mut peer = peer;
    peer.set_read_timeout(Some(Duration::from_millis(PATIENCE)))?;
    for word in script.split(' ') {
        act(rt, alloc, &mut peer, word)?;
    }
    Ok(())
}

/// One word of a script.
fn act(rt: HostRuntime, alloc: Global, peer: &mut TcpStream, word: &str) -> io::Result<()> {
    match word.split_once(':') {
        Some(("wait", millis)) => {
            thread::sleep(&rt, Duration::from_millis(number_of(millis)));
            Ok(())
        }
        Some(("many", count)) => send_many(peer, number_of(count)),
        Some(("chunks", numbers)) => send_chunks(alloc, peer, numbers),
        Some(("drip", count)) => drip(rt, peer, number_of(count)),
        _ if word == "read" => read_request(peer),
        _ if word == "hold" => read_on(peer),
        _ => send(alloc, peer, word),
    }
}

fn send(alloc: Global, peer: &mut TcpStream, text: &str) -> io::Result<()> {
    match bytes_of(alloc, text) {
        Ok(bytes) => peer.write_all(bytes.as_slice()),
        Err(_) => Err(io::Error::from(io::ErrorKind::OutOfMemory)),
    }
}

/// Sends so many times an `x`.
fn send_many(peer: &mut TcpStream, count: u64) -> io::Result<()> {
    let piece = [b'x'; PIECE];
    let mut left = count;
    for _ in 0..count {
        let size = left.min(PIECE as u64);
        if size == 0 {
            break;
        }
        peer.write_all(&piece[..size as usize])?;
        left = left.saturating_sub(size);
    }
    Ok(())
}

/// A chunk of one `x`, with a size line of so many bytes.
fn push_chunk(piece: &mut Bytes, line: u64) -> Result<(), OutOfMemory> {
    piece.append(b"1;a=")?;
    for _ in 0..line.saturating_sub(6) {
        piece.push(b'a')?;
    }
    piece.append(b"\r\nx\r\n")
}

/// So many such chunks.
fn chunks_of(alloc: Global, count: u64, line: u64) -> Result<Bytes, OutOfMemory> {
    let mut piece = Bytes::new(alloc);
    for _ in 0..count {
        push_chunk(&mut piece, line)?;
    }
    Ok(piece)
}

/// Sends so many hundred such chunks.
fn send_chunks(alloc: Global, peer: &mut TcpStream, numbers: &str) -> io::Result<()> {
    let (count, line) = match numbers.split_once(':') {
        Some((count, line)) => (number_of(count), number_of(line)),
        None => (number_of(numbers), 0),
    };
    let Ok(piece) = chunks_of(alloc, 100, line) else {
        return Err(io::Error::from(io::ErrorKind::OutOfMemory));
    };
    for _ in 0..count {
        peer.write_all(piece.as_slice())?;
    }
    Ok(())
}

/// Sends so many times an `x`, one each tenth of a second.
fn drip(rt: HostRuntime, peer: &mut TcpStream, count: u64) -> io::Result<()> {
    for _ in 0..count {
        peer.write_all(b"x")?;
        thread::sleep(&rt, Duration::from_millis(100));
    }
    Ok(())
}

/// Reads until the body of a request has come.
fn read_request(peer: &mut TcpStream) -> io::Result<()> {
    let mut buffer = [0; 4_096];
    for _ in 0..1_000 {
        let given = peer.read(&mut buffer)?;
        if given == 0 || buffer[..given].ends_with(BODY) {
            break;
        }
    }
    Ok(())
}

/// Reads until the other side ends.
fn read_on(peer: &mut TcpStream) -> io::Result<()> {
    let mut buffer = [0; 4_096];
    for _ in 0..u64::MAX {
        if peer.read(&mut buffer)? == 0 {
            break;
        }
    }
    Ok(())
}
