ghost use Rattle.std.specs.Prelude.{◌≡◌, ◌++◌, ◌∷◌, [], IfOk, codes};
ghost use Rattle.sb_json.specs.Printed.{message_cause_text as message_cause};
ghost use Rattle.list_versions.specs.Lines.{newline};
ghost use Rattle.update_messages.specs.Writing.{spelling_of_response};
ghost use Rattle.hash_messages.specs.Writing.{spelling_of_find_response};
ghost use Rattle.lookup_messages.specs.Writing.{spelling_of_lookup_response};
ghost use Rattle.sb_service.specs.Printed.{answer_line, journal_refusal_line as line_of_journal, request_line};

use hash_messages::{FindResponse, write_matches};
use list_versions::{JournalFault, push_journal_cause};
use lookup_messages::{LookupResponse, write_lookup_matches};
use sb_json::{MessageFault, push_message_cause};
use sb_model::{Bytes, OutOfMemory};
use std::alloc::Global;
use update_messages::{FetchResponse, write_response};

/// The line of a journal that is refused.
pub(crate) fn journal_line(alloc: Global, fault: JournalFault) -> Result<Bytes, OutOfMemory>
    ensures { IfOk result (λ line. line ≡ line_of_journal fault) }
{
    let mut line = Bytes::new(alloc);
    line.append(b"journal ")?;
    push_journal_cause(&mut line, fault)?;
    line.push(b'\n')?;
    Ok(line)
}

/// The line of a body that has no reading.
pub(crate) fn message_line(alloc: Global, fault: &MessageFault) -> Result<Bytes, OutOfMemory>
    ensures { IfOk result (λ line. line ≡ request_line (message_cause fault.now)) }
{
    let mut line = Bytes::new(alloc);
    line.append(b"request ")?;
    push_message_cause(&mut line, fault)?;
    line.push(b'\n')?;
    Ok(line)
}

/// The line of an answer to a fetch request.
pub(crate) fn response_line(alloc: Global, response: &FetchResponse) -> Result<Bytes, OutOfMemory>
    ensures { IfOk result (λ line. line ≡ answer_line (spelling_of_response response.now)) }
{
    let mut line = write_response(alloc, response)?;
    line.append(b"\n")?;
    Ok(line)
}

/// The line of an answer to a find request.
pub(crate) fn matches_line(alloc: Global, response: &FindResponse) -> Result<Bytes, OutOfMemory>
    ensures { IfOk result (λ line. line ≡ answer_line (spelling_of_find_response response.now)) }
{
    let mut line = write_matches(alloc, response)?;
    line.push(b'\n')?;
    Ok(line)
}

/// The line of an answer to a request to look URLs up.
pub(crate) fn lookups_line(alloc: Global, response: &LookupResponse) -> Result<Bytes, OutOfMemory>
    ensures { IfOk result (λ line. line ≡ answer_line (spelling_of_lookup_response response.now)) }
{
    let mut line = write_lookup_matches(alloc, response)?;
    line.push(b'\n')?;
    Ok(line)
}
