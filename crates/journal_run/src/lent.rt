ghost use Rattle.std.specs.Prelude.{◌≡◌, ◌≢◌, ◌∷◌, [], Err, Ok, Some, IfErr, IfOk, OnOk};
ghost use Rattle.list_versions.specs.Journal.{kept_of, read_on};

use list_versions::{History, JournalFault};
use sb_outside::{Failed, Source};
use std::alloc::Global;
use std::marker::Model;

/// A source that gives a text that is lent, and then answers its end. It never fails. Contracts see it as what it has left.
#[derive(Debug, Drop)]
pub(crate) struct LentText<'a> {
    rest: &'a [u8],
    at_end: bool,
}

impl<'a> Model for LentText<'a> {
    ghost use Rattle.std.specs.Prelude.{◌≡◌, ℕ, List, [], ◌∷◌, true, if◌then◌else◌};

    ghost Value = { List (List ℕ) };

    ghost view = { λ s. if s.at_end then [] else s.rest.now ∷ [] };

    ghost invariant = { λ s. s.at_end ≡ true → s.rest.now ≡ [] };
}

impl<'a> LentText<'a> {
    pub(crate) fn new(text: &'a [u8]) -> LentText<'a>
        ensures { result ≡ text.entry.now ∷ [] }
    {
        LentText {
            rest: text,
            at_end: false,
        }
    }
}

impl<'a> Source for LentText<'a> {
    ghost use Rattle.std.specs.Prelude.{Some};

    ghost faults = { λ _. 0 };

    ghost left = { λ s. Some s };

    fn read(&mut self, buffer: &mut [u8]) -> Result<usize, Failed> {
        if buffer.is_empty() {
            return Ok(0);
        }
        let count = buffer.len().min(self.rest.len());
        if count == 0 {
            self.at_end = true;
            return Ok(0);
        }
        buffer[..count].copy_from_slice(&self.rest[..count]);
        self.rest = &self.rest[count..];
        Ok(count)
    }
}

/// Reads a history on by a text.
pub(crate) fn read_on(alloc: Global, history: &mut History, text: &[u8]) -> Result<(), JournalFault>
    ensures ok { OnOk result (read_on history.old text.now ≡ Ok history.new) }
    ensures fault { IfErr result (λ fault. fault ≢ JournalFault.OutOfMemory → read_on history.old text.now ≡ Err fault) }
{
    let mut source = LentText::new(text);
    match history.grow(alloc, &mut source) {
        Ok(()) => Ok(()),
        Err(fault) => Err(fault),
    }
}

/// Reads a text as a whole journal.
pub(crate) fn read_whole(alloc: Global, text: &[u8]) -> Result<History, JournalFault>
    ensures ok { IfOk result (λ history. kept_of text.now ≡ Ok history) }
    ensures fault { IfErr result (λ fault. fault ≢ JournalFault.OutOfMemory → kept_of text.now ≡ Err fault) }
{
    let mut source = LentText::new(text);
    match History::load(alloc, &mut source) {
        Ok(history) => Ok(history),
        Err(fault) => Err(fault),
    }
}
