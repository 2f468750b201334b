ghost use Rattle.std.specs.Prelude.{◌≡◌, ◌≤◌, length, IfOk};
ghost use Rattle.update_messages.specs.Answer.{fetch_answer};
ghost use Rattle.delta_server.specs.Tokens.{server_naming};
ghost use Rattle.generated_load.specs.Exercise.{request_with};

use crate::changes::LIST;
use delta_server::{Settings, answer_fetch};
use list_versions::History;
use sb_model::{Bytes, OutOfMemory, Row, Text};
use std::alloc::Global;
use update_messages::{ClientInfo, FetchRequest, FetchResponse, ListRequest};

// No times are told.
const SETTINGS: Settings = Settings {
    wait: 0,
    find_wait: 0,
    cache: 0,
    negative: 0,
};

// A request for the list by one who has this state.
fn request_with(alloc: Global, state: &[u8]) -> Result<FetchRequest, OutOfMemory>
    requires { length state.now ≤ 4096 }
    ensures { IfOk result (λ request. request ≡ request_with state.now) }
{
    let asked = ListRequest {
        name: LIST,
        state: Bytes::from_slice(alloc, state)?,
        max_update: 0,
        max_database: 0,
        raw: true,
        rice: false,
    };
    let mut items = Row::with_capacity(alloc, 1)?;
    items.push(asked)?;
    Ok(FetchRequest {
        client: ClientInfo {
            id: Text::new(alloc),
            version: Text::new(alloc),
        },
        items,
    })
}

/// The answer to one who has this state.
pub(crate) fn answer_to(
    alloc: Global,
    history: &History,
    state: &[u8],
) -> Result<FetchResponse, OutOfMemory>
    requires { length state.now ≤ 4096 }
    ensures { IfOk result (λ response. response
        ≡ fetch_answer history.now.versions (server_naming history.now.versions) 0 (request_with state.now)) }
{
    let request = request_with(alloc, state)?;
    answer_fetch(alloc, history, &SETTINGS, &request)
}
