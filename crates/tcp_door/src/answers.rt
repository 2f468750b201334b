ghost use Rattle.std.specs.Prelude.{◌≡◌, ◌-◌, [], OnOk, OnErr};
ghost use Rattle.tcp_door.specs.Counted.{with_waiting_answer, without_waiting_answer};

use gathering::{Outgoing, Texts};
use sb_model::OutOfMemory;
use std::alloc::Global;

/// How many bytes of answers wait to be taken: the own bytes of each, and each text that several share once.
#[derive(Drop)]
pub(crate) struct Answers {
    bytes: u64,
    texts: Texts,
}

impl Answers {
    pub(crate) fn new(alloc: Global) -> Answers
        ensures { result ≡ record { bytes = 0; texts = [] } }
    {
        Answers {
            bytes: 0,
            texts: Texts::new(alloc),
        }
    }

    pub(crate) fn bytes(&self) -> u64
        ensures { result ≡ self.now.bytes }
    {
        self.bytes
    }

    /// An answer waits from now on. Where memory is refused, it does not count.
    pub(crate) fn enter(&mut self, answer: &Outgoing) -> Result<(), OutOfMemory>
        ensures ok { OnOk result (self.new ≡ with_waiting_answer self.old answer.now) }
        ensures err { OnErr result (self.new ≡ self.old) }
    {
        if let Some((number, length)) = answer.shared() {
            match self.texts.take(number) {
                Ok(true) => self.bytes = self.bytes.saturating_add(length as u64),
                Ok(false) => {}
                Err(e) => return Err(e),
            }
        }
        self.bytes = self.bytes.saturating_add(answer.owned());
        Ok(())
    }

    /// Some of an answer was taken: so many bytes of its own were left before, and so many now.
    pub(crate) fn move_on(&mut self, before: u64, now: u64)
        ensures { self.new ≡ record self.old { bytes = self.old.bytes - (before - now) } }
    {
        self.bytes = self.bytes.saturating_sub(before.saturating_sub(now));
    }

    /// An answer waits no longer.
    pub(crate) fn leave(&mut self, answer: &Outgoing)
        ensures { self.new ≡ without_waiting_answer self.old answer.now }
    {
        self.bytes = self.bytes.saturating_sub(answer.owned());
        if let Some((number, length)) = answer.shared()
            && self.texts.let_go(number)
        {
            self.bytes = self.bytes.saturating_sub(length as u64);
        }
    }
}
