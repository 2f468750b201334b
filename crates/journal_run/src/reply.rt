ghost use Rattle.std.specs.Prelude.{◌≡◌, ◌≢◌, ◌⊎◌, true, IfOk};
ghost use Rattle.sb_outside.specs.Outside.{Rose};
ghost use Rattle.journal_run.specs.Printed.{done_with, refusal_of, refused_with, unknown_list};
ghost use Rattle.journal_run.specs.Stops.{is_end_of_reply, journal_run_status};
ghost use Rattle.journal_run.specs.Written.{IsWritten};

use crate::stop::Stop;
use list_versions::{JournalFault, push_journal_cause};
use sb_model::{Bytes, OutOfMemory};
use sb_outside::{Failed, Sink, write_all};
use std::alloc::Global;
use std::marker::Model;

/// What is printed, and what ends the run if it is written whole.
#[derive(Debug, Drop)]
pub(crate) struct Reply {
    pub text: Bytes,
    pub stop: Stop,
}

impl Model for Reply {
    ghost use Rattle.std.specs.Prelude.{◌≡◌, true};
    ghost use Rattle.journal_run.specs.Stops.{is_end_of_reply, journal_run_status};
    ghost use Rattle.journal_run.specs.Written.{Reply as Replied};

    ghost Value = { Replied };

    ghost view = { λ r. record { text = r.text; status = journal_run_status r.stop } };

    ghost invariant = { λ r. is_end_of_reply r.stop ≡ true };
}

impl Reply {
    /// A text, and nothing hindered the run.
    pub(crate) fn done(text: Bytes) -> Reply
        ensures { result ≡ done_with text }
    {
        Reply {
            text,
            stop: Stop::Done,
        }
    }

    /// A text that refuses.
    pub(crate) fn refused(text: Bytes) -> Reply
        ensures { result ≡ refused_with text }
    {
        Reply {
            text,
            stop: Stop::Refused,
        }
    }

    /// The journal is refused by this fault. Want of memory is no cause that is told.
    pub(crate) fn of_fault(alloc: Global, fault: JournalFault) -> Result<Reply, OutOfMemory>
        ensures { IfOk result (λ reply. reply ≡ refusal_of fault) }
    {
        let mut text = Bytes::new(alloc);
        text.append(b"journal ")?;
        push_journal_cause(&mut text, fault)?;
        text.push(b'\n')?;
        Ok(Reply {
            text,
            stop: Stop::BadJournal,
        })
    }

    /// The journal does not declare the list.
    pub(crate) fn of_unknown_list(alloc: Global) -> Result<Reply, OutOfMemory>
        ensures { IfOk result (λ reply. reply ≡ unknown_list) }
    {
        let text = Bytes::from_slice(alloc, b"journal unknown-list\n")?;
        Ok(Reply {
            text,
            stop: Stop::BadJournal,
        })
    }

    /// Writes the reply, and answers what ends the run: what the reply says, or a fault of the output.
    pub(crate) fn print<O: Sink>(&self, out: &mut O) -> Stop
        ensures written { IsWritten self.now (journal_run_status result) (O.contents out.old) (O.contents out.new) }
        ensures ends { (is_end_of_reply result ≡ true) ⊎ (result ≡ Stop.WriteFault) }
        ensures failed { result ≡ Stop.WriteFault → Rose (O.faults out.old) (O.faults out.new) }
        ensures kept { result ≢ Stop.WriteFault → O.faults out.new ≡ O.faults out.old }
    {
        match write_all(out, self.text.as_slice()) {
            Ok(()) => self.stop,
            Err(Failed) => Stop::WriteFault,
        }
    }
}
