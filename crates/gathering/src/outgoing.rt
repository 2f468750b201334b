ghost use Rattle.std.specs.Prelude.{◌≡◌, ◌+◌, ◌-◌, ◌≤◌, [], ◌++◌, length, take, drop, true, false, None, IfOk, OnErr, ◌↔◌, IsTrue};
ghost use Rattle.gathering.specs.Deadlines.{moment};
ghost use Rattle.gathering.specs.Wires.{all_left, own_left, nothing_leaves, bytes_of_text, HoldsSize};

use crate::own_bytes::OwnBytes;
use sb_model::OutOfMemory;
use sb_outside::SharedText;
use std::alloc::Global;
use std::marker::Model;
use std::mem;

/// An answer of which some is not yet sent: bytes of its own, and among them at most one text that others may hold too.
/// Contracts see it as what is left of its own bytes before the text, of the text, and of its own bytes behind it, with how
/// many bytes are sent next, and the number and the length of the text.
#[derive(Drop)]
pub struct Outgoing {
    alloc: Global,
    // its own bytes before the text
    head: OwnBytes,
    // the text, and its number
    shared: Option<SharedText>,
    number: u64,
    // how many bytes of the text are sent
    sent: usize,
    // its own bytes after the text, or all where there is none
    tail: OwnBytes,
}

impl Model for Outgoing {
    ghost use Rattle.std.specs.Prelude.{◌≡◌, ◌≤◌, [], None, drop, length};
    ghost use Rattle.gathering.specs.Wires.{Leaving, leaving, bytes_waiting, bytes_of_text, held_of};

    ghost Value = { Leaving };

    ghost view = { λ o. leaving o.head (drop o.sent (bytes_of_text o.shared)) o.tail (held_of o.number o.shared) };

    ghost invariant = { λ o. (o.sent ≤ length (bytes_of_text o.shared)) × (o.shared ≡ None → bytes_waiting o.head ≡ []) };
}

/// What of a text is left after so many bytes.
fn rest_of(shared: &Option<SharedText>, sent: usize) -> &[u8]
    requires { sent ≤ length (bytes_of_text shared.now) }
    ensures { result.now ≡ drop sent (bytes_of_text shared.now) }
{
    match shared {
        Some(text) => &text.as_slice()[sent..],
        None => &[],
    }
}

/// How many bytes a text has.
fn length_of(shared: &Option<SharedText>) -> usize
    ensures { result ≡ length (bytes_of_text shared.now) }
{
    match shared {
        Some(text) => text.as_slice().len(),
        None => 0,
    }
}

impl Outgoing {
    /// No bytes.
    pub fn new(alloc: Global) -> Self
        ensures { result ≡ nothing_leaves }
    {
        Outgoing {
            alloc,
            head: OwnBytes::new(alloc),
            shared: None,
            number: 0,
            sent: 0,
            tail: OwnBytes::new(alloc),
        }
    }

    /// How many bytes are left to send, at most the greatest `u64`.
    pub fn left(&self) -> u64
        ensures { result ≡ moment (length (all_left self.now)) }
    {
        let shared = rest_of(&self.shared, self.sent).len() as u64;
        let own = (self.head.len() as u64).saturating_add(self.tail.len() as u64);
        own.saturating_add(shared)
    }

    /// How many of them are its own, at most the greatest `u64`.
    pub fn owned(&self) -> u64
        ensures { result ≡ moment (own_left self.now) }
    {
        (self.head.len() as u64).saturating_add(self.tail.len() as u64)
    }

    /// The number and the length of the text that it shares, or `None` where it holds none.
    pub fn shared(&self) -> Option<(u64, usize)>
        ensures { result ≡ self.now.held }
    {
        match &self.shared {
            Some(text) => Some((self.number, text.as_slice().len())),
            None => None,
        }
    }

    /// Appends a front of the piece, and says how many bytes. It is empty only where the piece is. Where memory is refused,
    /// nothing is appended.
    pub fn put(&mut self, piece: &[u8]) -> Result<usize, OutOfMemory>
        ensures within { IfOk result (λ n. n ≤ length piece.now) }
        ensures some { IfOk result (λ n. n ≡ 0 → piece.now ≡ []) }
        ensures ok { IfOk result (λ n. self.new ≡ record self.old {
          behind = self.old.behind ++ take n piece.now;
          front = self.new.front;
        }) }
        ensures bytes { IfOk result (λ n. all_left self.new ≡ all_left self.old ++ take n piece.now) }
        ensures err { OnErr result (self.new ≡ record self.old { front = self.new.front }) }
    {
        self.tail.put(piece)
    }

    /// Appends a whole text, which is held and not copied, where none is held so far. It says whether it did. Where memory
    /// is refused, nothing is appended.
    pub fn put_shared(&mut self, text: &SharedText) -> Result<bool, OutOfMemory>
        ensures takes { IfOk result (λ took. IsTrue took ↔ self.old.held ≡ None) }
        ensures taken { IfOk result (λ took. took ≡ true → all_left self.new ≡ all_left self.old ++ text.now) }
        ensures own { IfOk result (λ took. took ≡ true → own_left self.new ≡ own_left self.old) }
        ensures held { IfOk result (λ took. took ≡ true → HoldsSize self.new.held (length text.now)) }
        ensures not { IfOk result (λ took. took ≡ false → self.new ≡ self.old) }
        ensures err { OnErr result (self.new ≡ self.old) }
    {
        if self.shared.is_some() {
            return Ok(false);
        }
        let held = text.share()?;
        self.head = mem::replace(&mut self.tail, OwnBytes::new(self.alloc));
        self.shared = Some(held);
        self.number = text.number();
        self.sent = 0;
        Ok(true)
    }

    /// The bytes that are sent next: empty only where nothing is left.
    pub fn front(&self) -> &[u8]
        ensures front { result.now ≡ take self.now.front (all_left self.now) }
        ensures size { length result.now ≡ self.now.front }
        ensures some { result.now ≡ [] → all_left self.now ≡ [] }
    {
        let head = self.head.front();
        if !head.is_empty() {
            return head;
        }
        let shared = rest_of(&self.shared, self.sent);
        if !shared.is_empty() {
            return shared;
        }
        self.tail.front()
    }

    /// Says that so many bytes of the front are sent.
    pub fn advance(&mut self, count: usize)
        requires { count ≤ self.old.front }
        ensures before { self.new.before ≡ drop count self.old.before }
        ensures text { self.new.text ≡ drop (count - length self.old.before) self.old.text }
        ensures behind { self.new.behind ≡ drop (count - length self.old.before - length self.old.text) self.old.behind }
        ensures bytes { all_left self.new ≡ drop count (all_left self.old) }
        ensures own { own_left self.new ≤ own_left self.old }
        ensures held { self.new.held ≡ self.old.held }
    {
        if !self.head.front().is_empty() {
            self.head.advance(count);
            return;
        }
        if self.sent < length_of(&self.shared) {
            self.sent += count;
            return;
        }
        self.tail.advance(count);
    }
}
