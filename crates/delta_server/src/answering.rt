ghost use Rattle.std.specs.Prelude.{◌≡◌, IfOk};
ghost use Rattle.sb_model.specs.History.{declares};
ghost use Rattle.update_messages.specs.Answer.{fetch_answer};
ghost use Rattle.delta_server.specs.Tokens.{server_naming};

use crate::items::answer_items;
use list_versions::History;
use sb_model::{Duration, ListName, OutOfMemory};
use std::alloc::Global;
use update_messages::{FetchRequest, FetchResponse};

/// What a server says of times, each in seconds.
#[derive(Clone, Copy, Debug)]
pub struct Settings {
    /// The minimum wait of each answer to a fetch request (`minimumWaitDuration`), at most a day (86,400).
    pub wait: u32,
    /// The minimum wait of each answer to a find request (`minimumWaitDuration`), at most a day (86,400).
    pub find_wait: u32,
    /// How long a match of a full hash may be kept (`cacheDuration`).
    pub cache: u32,
    /// How long a prefix without a match may be kept (`negativeCacheDuration`).
    pub negative: u32,
}

/// Whether a history declares a list.
pub(crate) fn is_declared(history: &History, list: ListName) -> bool
    ensures { result ≡ declares history.now.versions list }
{
    history.newest(list).is_some()
}

/// The answer to a fetch request (`threatListUpdates:fetch`): one update for each asked list that is declared, in their
/// order, and none for others. One who holds a version of a list gets what leads from its set to that of the version that
/// it is brought to, made for its state, and any other gets a whole set. Where no asked list is declared, the answer has
/// the wait alone.
pub fn answer_fetch(
    alloc: Global,
    history: &History,
    settings: &Settings,
    request: &FetchRequest,
) -> Result<FetchResponse, OutOfMemory>
    ensures answer { IfOk result (λ response. response
        ≡ fetch_answer history.now.versions (server_naming history.now.versions) settings.now.wait request.now) }
{
    Ok(FetchResponse {
        items: answer_items(alloc, history, request.items.as_slice())?,
        wait: Duration::from_seconds(settings.wait),
    })
}
