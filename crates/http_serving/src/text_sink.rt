ghost use Rattle.std.specs.Prelude.{◌≡◌, [], Some};

use sb_model::{Bytes, OutOfMemory};
use sb_outside::{Failed, Sink};
use std::alloc::Global;

/// A sink that takes each piece whole, and fails only where memory is refused.
#[derive(Debug, Drop)]
pub(crate) struct TextSink {
    text: Bytes,
    faults: u64,
}

impl TextSink {
    pub fn new(alloc: Global) -> Self
        ensures { result.text ≡ [] }
    {
        TextSink {
            text: Bytes::new(alloc),
            faults: 0,
        }
    }

    /// What was taken, which is moved and not copied.
    pub fn into_text(self) -> Bytes
        ensures { result ≡ self.text }
    {
        let TextSink { text, faults: _ } = self;
        text
    }
}

impl Sink for TextSink {
    ghost faults = { λ s. s.faults };

    ghost contents = { λ s. Some s.text };

    fn write(&mut self, piece: &[u8]) -> Result<usize, Failed> {
        match self.text.append(piece) {
            Ok(()) => Ok(piece.len()),
            Err(OutOfMemory) => {
                self.faults = self.faults.saturating_add(1);
                Err(Failed)
            }
        }
    }
}
