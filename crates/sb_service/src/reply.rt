ghost use Rattle.std.specs.Prelude.{◌≡◌, ◌≢◌, IfOk};
ghost use Rattle.sb_json.specs.Printed.{message_cause_text as message_cause};
ghost use Rattle.sb_service.specs.Printed.{journal_refusal, reply_because, reply_with};
ghost use Rattle.sb_service.specs.Answer.{IsReplyTo};
ghost use Rattle.sb_service.specs.Connection.{lookups_text, matches_text, updates_text};

use crate::command::MessageKind;
use crate::printing::{journal_line, lookups_line, matches_line, message_line, response_line};
use crate::stop::Stop;
use delta_server::Settings;
use hash_messages::{FindRequest, read_find};
use list_versions::{History, JournalFault};
use lookup_messages::{LookupRequest, read_lookup};
use named_answers::{answer_named_fetch, answer_named_find};
use sb_json::MessageFault;
use sb_lookup::answer_lookup;
use sb_model::{Bytes, OutOfMemory};
use std::alloc::Global;
use std::marker::Model;
use update_messages::{FetchRequest, read_request};

/// What is printed, and what ends the run where it is written whole.
#[derive(Debug, Drop)]
pub(crate) struct Reply {
    pub text: Bytes,
    pub stop: Stop,
}

impl Model for Reply {
    ghost use Rattle.sb_service.specs.Printed.{Reply as Replied};
    ghost use Rattle.sb_service.specs.Stops.{status_of};

    ghost Value = { Replied };

    ghost view = { λ r. record { text = r.text; status = status_of r.stop } };
}

/// The reply to one whose journal is refused. Want of memory is no cause that is told.
pub(crate) fn refuse_journal(alloc: Global, fault: JournalFault) -> Result<Reply, OutOfMemory>
    ensures { IfOk result (λ reply. reply ≡ journal_refusal fault) }
{
    let text = journal_line(alloc, fault)?;
    Ok(Reply {
        text,
        stop: Stop::BadJournal,
    })
}

/// The reply to a body that has no reading. Want of memory is no cause that is told.
fn refuse_body(alloc: Global, fault: &MessageFault) -> Result<Reply, OutOfMemory>
    ensures told { IfOk result (λ reply. reply ≡ reply_because (message_cause fault.now)) }
    ensures some { IfOk result (λ _. fault.now ≢ MessageFault.OutOfMemory) }
{
    if let MessageFault::OutOfMemory = fault {
        return Err(OutOfMemory);
    }
    let text = message_line(alloc, fault)?;
    Ok(Reply {
        text,
        stop: Stop::BadRequest,
    })
}

/// The reply to a request for updates.
fn reply_with_updates(
    alloc: Global,
    history: &History,
    settings: &Settings,
    request: &FetchRequest,
) -> Result<Reply, OutOfMemory>
    ensures { IfOk result (λ reply. reply ≡ reply_with (updates_text history.now.versions settings.now request.now)) }
{
    let response = answer_named_fetch(alloc, history, settings, request)?;
    let text = response_line(alloc, &response)?;
    Ok(Reply {
        text,
        stop: Stop::Done,
    })
}

/// The reply to the body of a fetch request.
fn reply_to_fetch(
    alloc: Global,
    history: &History,
    settings: &Settings,
    body: &[u8],
) -> Result<Reply, OutOfMemory>
    ensures { IfOk result (λ reply. IsReplyTo history.now.versions settings.now MessageKind.Fetch body.now reply) }
{
    match read_request(alloc, body) {
        Ok(request) => reply_with_updates(alloc, history, settings, &request),
        Err(fault) => refuse_body(alloc, &fault),
    }
}

/// The reply to a request for full hashes.
fn reply_with_matches(
    alloc: Global,
    history: &History,
    settings: &Settings,
    request: &FindRequest,
) -> Result<Reply, OutOfMemory>
    ensures { IfOk result (λ reply. reply ≡ reply_with (matches_text history.now.versions settings.now request.now)) }
{
    let response = answer_named_find(alloc, history, settings, request)?;
    let text = matches_line(alloc, &response)?;
    Ok(Reply {
        text,
        stop: Stop::Done,
    })
}

/// The reply to the body of a find request.
fn reply_to_find(
    alloc: Global,
    history: &History,
    settings: &Settings,
    body: &[u8],
) -> Result<Reply, OutOfMemory>
    ensures { IfOk result (λ reply. IsReplyTo history.now.versions settings.now MessageKind.Find body.now reply) }
{
    match read_find(alloc, body) {
        Ok(request) => reply_with_matches(alloc, history, settings, &request),
        Err(fault) => refuse_body(alloc, &fault),
    }
}

/// The reply to a request to look URLs up.
fn reply_with_lookups(
    alloc: Global,
    history: &History,
    settings: &Settings,
    request: &LookupRequest,
) -> Result<Reply, OutOfMemory>
    ensures { IfOk result (λ reply. reply ≡ reply_with (lookups_text history.now.versions settings.now request.now)) }
{
    let response = answer_lookup(alloc, history, settings, request)?;
    let text = lookups_line(alloc, &response)?;
    Ok(Reply {
        text,
        stop: Stop::Done,
    })
}

/// The reply to the body of a request to look URLs up.
fn reply_to_lookup(
    alloc: Global,
    history: &History,
    settings: &Settings,
    body: &[u8],
) -> Result<Reply, OutOfMemory>
    ensures { IfOk result (λ reply. IsReplyTo history.now.versions settings.now MessageKind.Lookup body.now reply) }
{
    match read_lookup(alloc, body) {
        Ok(request) => reply_with_lookups(alloc, history, settings, &request),
        Err(fault) => refuse_body(alloc, &fault),
    }
}

/// The reply to the body of a request of a kind.
pub(crate) fn reply_to_body(
    alloc: Global,
    history: &History,
    settings: &Settings,
    kind: MessageKind,
    body: &[u8],
) -> Result<Reply, OutOfMemory>
    ensures { IfOk result (λ reply. IsReplyTo history.now.versions settings.now kind body.now reply) }
{
    match kind {
        MessageKind::Fetch => reply_to_fetch(alloc, history, settings, body),
        MessageKind::Find => reply_to_find(alloc, history, settings, body),
        MessageKind::Lookup => reply_to_lookup(alloc, history, settings, body),
    }
}
