ghost use Rattle.std.specs.Prelude.{◌≡◌, ◌≤◌, ◌↔◌, ℕ, Some};
ghost use Rattle.sb_model.specs.declared.names.ListName.{ListName};
ghost use Rattle.sb_model.specs.History.{version_count};
ghost use Rattle.delta_server.specs.Tokens.{server_naming};

use crate::tokens::{read_state, state_token};
use list_versions::History;
use sb_model::ListName;

/// The state token of a version of a list, as the server of a history names it.
pub fn token_of(history: &History, list: ListName, version: u64) -> [u8; 20]
    ensures { result ≡ server_naming history.now.versions list version }
{
    state_token(history.epoch(), list, version)
}

/// The list and the version that a token names. `None` comes exactly where the bytes are the token
/// of no list in the epoch of the history, or of a version above its newest.
pub fn read_token(history: &History, token: &[u8]) -> Option<(ListName, u64)>
    ensures { (list : ListName) (version : ℕ) → (result ≡ Some (list, version))
        ↔ ((token.now ≡ server_naming history.now.versions list version) × (version ≤ version_count history.now.versions)) }
{
    read_state(history.epoch(), history.len(), token)
}
