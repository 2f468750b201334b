ghost use Rattle.std.specs.Prelude.{◌≡◌, IfOk};

use sb_model::{Bytes, OutOfMemory};
use std::alloc::Global;
use std::marker::Model;
use std::sync::Arc;

/// A text that several hold at once, and that is there once. Contracts see it as its bytes.
#[derive(Debug, Drop)]
pub struct SharedText {
    number: u64,
    text: Arc<Bytes, Global>,
}

impl Model for SharedText {
    ghost use Rattle.std.specs.Prelude.{ℕ, List};
    ghost use Rattle.std.specs.Arc.{arc_value};

    ghost Value = { List ℕ };

    ghost view = { λ s. arc_value s.text };
}

impl SharedText {
    /// A text with a number. Whoever counts what is held counts texts with one number once, so each text
    /// is to have a number of its own.
    pub fn new(alloc: Global, number: u64, text: Bytes) -> Result<SharedText, OutOfMemory>
        ensures { IfOk result (λ shared. shared ≡ text) }
    {
        let Ok(text) = Arc::new(alloc, text) else {
            return Err(OutOfMemory);
        };
        Ok(SharedText { number, text })
    }

    /// The same text once more, which is held and not copied.
    pub fn share(&self) -> Result<SharedText, OutOfMemory>
        ensures { IfOk result (λ shared. shared ≡ self.now) }
    {
        let text = Arc::try_clone(&self.text)?;
        Ok(SharedText {
            number: self.number,
            text,
        })
    }

    /// The number that it was given.
    pub fn number(&self) -> u64 {
        self.number
    }

    pub fn as_slice(&self) -> &[u8]
        ensures { result.now ≡ self.now }
    {
        self.text.as_slice()
    }
}
