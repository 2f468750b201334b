ghost use Rattle.std.specs.Prelude.{◌≡◌, IfOk};
ghost use Rattle.std.specs.List.{list_any};
ghost use Rattle.answering_lists.specs.Lists.{is_answered_for_any};
ghost use Rattle.delta_server.specs.Tokens.{server_naming};
ghost use Rattle.named_answers.specs.Answers.{named_fetch_answer};

use crate::asking::{answered_items, items_of_answering};
use crate::naming::under_names;
use answering_lists::is_answered_for_any;
use delta_server::{Settings, answer_fetch};
use list_versions::History;
use sb_model::{OutOfMemory, Text};
use std::alloc::Global;
use update_messages::{ClientInfo, FetchRequest, FetchResponse, ListRequest};

// Whether the list for any platform answers for an item in place of its own.
fn asks_for_another(history: &History, asked: &ListRequest) -> bool
    ensures { result ≡ is_answered_for_any history.now.versions asked.now.name }
{
    is_answered_for_any(history, asked.name)
}

// Whether a list for any platform answers for some item in place of its own.
fn some_ask_for_another(history: &History, items: &[ListRequest]) -> bool
    ensures { result ≡ list_any (λ asked. is_answered_for_any history.now.versions asked.name) items.now }
{
    items.iter().any(|asked| asks_for_another(history, asked))
}

/// A client that tells nothing of itself. No answer looks at it.
pub(crate) fn no_client(alloc: Global) -> ClientInfo {
    ClientInfo {
        id: Text::new(alloc),
        version: Text::new(alloc),
    }
}

// The answer to a request, as it is asked of the lists that answer for its items.
fn answer_by_others(
    alloc: Global,
    history: &History,
    settings: &Settings,
    request: &FetchRequest,
) -> Result<FetchResponse, OutOfMemory>
    ensures { IfOk result (λ response. response
        ≡ named_fetch_answer history.now.versions (server_naming history.now.versions) settings.now.wait request.now) }
{
    let names = answered_items(alloc, history, request.items.as_slice())?;
    let items = items_of_answering(alloc, history, request.items.as_slice())?;
    let client = no_client(alloc);
    let others = FetchRequest { client, items };
    let FetchResponse { items, wait } = answer_fetch(alloc, history, settings, &others)?;
    Ok(FetchResponse {
        items: under_names(alloc, names.as_slice(), items)?,
        wait,
    })
}

/// The answer to a fetch request (`threatListUpdates:fetch`) under the names that are asked: one update for each asked item for
/// which a list answers, in their order, and none for others. It is the update that the list which answers has for the item, with
/// that list's state, under the name for which the item asks.
///
/// If no list for any platform answers in place of another, the request is answered as it stands, and nothing is copied.
pub fn answer_named_fetch(
    alloc: Global,
    history: &History,
    settings: &Settings,
    request: &FetchRequest,
) -> Result<FetchResponse, OutOfMemory>
    ensures answer { IfOk result (λ response. response
        ≡ named_fetch_answer history.now.versions (server_naming history.now.versions) settings.now.wait request.now) }
{
    if some_ask_for_another(history, request.items.as_slice()) {
        answer_by_others(alloc, history, settings, request)
    } else {
        answer_fetch(alloc, history, settings, request)
    }
}
