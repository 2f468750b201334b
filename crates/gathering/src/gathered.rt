ghost use Rattle.std.specs.Prelude.{◌≡◌, [], ◌++◌, length, IfOk, OnOk, OnErr, IsTrue, IsFalse};
ghost use Rattle.http_edge.specs.Deciding.{IsDecided};
ghost use Rattle.http_edge.specs.Requests.{NeedsMore};

use http_edge::RequestWatch;
use sb_model::{Bytes, OutOfMemory};
use std::alloc::Global;
use std::marker::Model;

/// The bytes that a peer has sent so far, with what they say of its request. Contracts see them as the list of the bytes.
#[derive(Drop)]
pub struct Gathered {
    bytes: Bytes,
    watch: RequestWatch,
}

impl Model for Gathered {
    ghost use Rattle.std.specs.Prelude.{List, ℕ};
    ghost use Rattle.http_edge.specs.Deciding.{StandsFor};

    ghost Value = { List ℕ };

    ghost view = { λ g. g.bytes };

    ghost invariant = { λ g. StandsFor g.watch g.bytes };
}

impl Gathered {
    /// No bytes yet. It takes memory for 16,384 bytes here, for the head of a request.
    pub fn new(alloc: Global) -> Result<Self, OutOfMemory>
        ensures { IfOk result (λ gathered. gathered ≡ []) }
    {
        Ok(Gathered {
            bytes: Bytes::new(alloc),
            watch: RequestWatch::new(alloc)?,
        })
    }

    /// Takes the next bytes, and looks at each once.
    pub fn take(&mut self, piece: &[u8]) -> Result<(), OutOfMemory>
        ensures ok { OnOk result (self.new ≡ self.old ++ piece.now) }
        ensures err { OnErr result (self.new ≡ self.old) }
    {
        self.bytes.append(piece)?;
        self.watch.feed(piece);
        Ok(())
    }

    /// Whether the bytes decide the request. While they do not, more are needed.
    pub fn is_decided(&self) -> bool
        ensures decided { IsTrue result → IsDecided self.now }
        ensures undecided { IsFalse result → NeedsMore self.now }
    {
        self.watch.is_decided()
    }

    /// How many bytes there are.
    pub fn len(&self) -> usize
        ensures { result ≡ length self.now }
    {
        self.bytes.len()
    }

    /// The bytes.
    pub fn into_bytes(self) -> Bytes
        ensures { result ≡ self }
    {
        let Gathered { bytes, watch } = self;
        drop(watch);
        bytes
    }
}
