ghost use Rattle.std.specs.Prelude.{◌≡◌, ◌<◌, ◌≤◌, [], ◌++◌, length, take, drop, IfOk, OnOk, OnErr, All};
ghost use Rattle.gathering.specs.Wires.{bytes_waiting, nothing, first_of_pieces, pieces_after_first};

use sb_model::{Bytes, OutOfMemory};
use std::alloc::Global;
use std::collections::VecDeque;
use std::marker::Model;
use std::mem;

/// How many bytes a piece of an answer has at most.
const PIECE: usize = 65_536;

/// Bytes of an answer that are not yet sent, in pieces of 65,536 bytes, each of which is freed once it is sent. Contracts
/// see it as the list of the bytes.
#[derive(Drop)]
pub(crate) struct OwnBytes {
    alloc: Global,
    // pieces that are not empty
    full: VecDeque<Bytes>,
    last: Bytes,
    // how many bytes of the first piece are sent
    sent: usize,
    // how many bytes are left
    left: usize,
}

impl Model for OwnBytes {
    ghost use Rattle.std.specs.Prelude.{drop};
    ghost use Rattle.gathering.specs.Wires.{Waiting, first_of_pieces, pieces_after_first, IsOutgoing};

    ghost Value = { Waiting };

    ghost view = { λ o. record {
      front = drop o.sent (first_of_pieces o.full.items o.last);
      rest = pieces_after_first o.full.items o.last;
    } };

    ghost invariant = { λ o. IsOutgoing o.full.items o.last o.sent o.left };
}

/// Puts the last piece to the others, where it is full, and begins another. Where memory is refused, both stay.
fn seal(alloc: Global, full: &mut VecDeque<Bytes>, last: &mut Bytes) -> Result<(), OutOfMemory>
    ensures room { OnOk result (length last.new < PIECE) }
    ensures first { first_of_pieces full.new.items last.new ≡ first_of_pieces full.old.items last.old }
    ensures rest { pieces_after_first full.new.items last.new ≡ pieces_after_first full.old.items last.old }
    ensures filled { All (λ piece. 0 < length piece) full.old.items → All (λ piece. 0 < length piece) full.new.items }
{
    if last.len() < PIECE {
        return Ok(());
    }
    full.try_reserve(1)?;
    let whole = mem::replace(last, Bytes::new(alloc));
    full.push_back_reserved(whole);
    Ok(())
}

/// How many bytes the first piece has.
fn first_len(full: &VecDeque<Bytes>, last: &Bytes) -> usize
    ensures { result ≡ length (first_of_pieces full.now.items last.now) }
{
    match full.front() {
        Some(first) => first.len(),
        None => last.len(),
    }
}

/// Frees the first piece.
fn free_first(alloc: Global, full: &mut VecDeque<Bytes>, last: &mut Bytes)
    requires filled { All (λ piece. 0 < length piece) full.old.items }
    ensures bytes { first_of_pieces full.new.items last.new ++ pieces_after_first full.new.items last.new ≡ pieces_after_first full.old.items last.old }
    ensures filled { All (λ piece. 0 < length piece) full.new.items }
{
    if full.pop_front().is_none() {
        *last = Bytes::new(alloc);
    }
}

impl OwnBytes {
    /// No bytes.
    pub(crate) fn new(alloc: Global) -> Self
        ensures { result ≡ nothing }
    {
        OwnBytes {
            alloc,
            full: VecDeque::new(alloc),
            last: Bytes::new(alloc),
            sent: 0,
            left: 0,
        }
    }

    /// How many bytes are left to send.
    pub(crate) fn len(&self) -> usize
        ensures { result ≡ length (bytes_waiting self.now) }
    {
        self.left
    }

    /// Appends a front of the piece, and says how many bytes. It is empty only where the piece is. Where memory is refused,
    /// nothing is appended.
    pub(crate) fn put(&mut self, piece: &[u8]) -> Result<usize, OutOfMemory>
        ensures within { IfOk result (λ n. n ≤ length piece.now) }
        ensures some { IfOk result (λ n. n ≡ 0 → piece.now ≡ []) }
        ensures ok { IfOk result (λ n. bytes_waiting self.new ≡ bytes_waiting self.old ++ take n piece.now) }
        ensures err { OnErr result (bytes_waiting self.new ≡ bytes_waiting self.old) }
    {
        seal(self.alloc, &mut self.full, &mut self.last)?;
        let count = piece.len().min(PIECE - self.last.len());
        let Some(left) = self.left.checked_add(count) else {
            return Err(OutOfMemory);
        };
        self.last.append(&piece[..count])?;
        self.left = left;
        Ok(count)
    }

    /// The bytes that are sent next: empty only where nothing is left.
    pub(crate) fn front(&self) -> &[u8]
        ensures front { result.now ≡ self.now.front }
        ensures some { result.now ≡ [] → self.now.rest ≡ [] }
    {
        match self.full.front() {
            Some(first) => &first.as_slice()[self.sent..],
            None => &self.last.as_slice()[self.sent..],
        }
    }

    /// Says that so many bytes of the front are sent.
    pub(crate) fn advance(&mut self, count: usize)
        requires { count ≤ length self.old.front }
        ensures { bytes_waiting self.new ≡ drop count (bytes_waiting self.old) }
    {
        self.left -= count;
        let size = first_len(&self.full, &self.last);
        if count < size - self.sent {
            self.sent += count;
        } else {
            free_first(self.alloc, &mut self.full, &mut self.last);
            self.sent = 0;
        }
    }
}
