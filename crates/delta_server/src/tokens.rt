ghost use Rattle.std.specs.Prelude.{◌≡◌, ℕ, ◌≤◌, ◌↔◌, Some, length, IsTrue, IfSome};
ghost use Rattle.std.specs.Int.{w64, from_be_bytes};
ghost use Rattle.sb_model.specs.declared.names.ListName.{ListName};
ghost use Rattle.sb_model.specs.History.{History, version_count};
ghost use Rattle.update_messages.specs.Answer.{version_named};
ghost use Rattle.delta_server.specs.Tokens.{server_token, server_naming, codes_of};

use sb_model::{
    EntryType, ListName, PlatformType, ThreatType, codes_name_types, names_go_by_their_codes,
};

/// How many bytes a state token has.
const TOKEN_LEN: usize = 20;

/// The state token of a version of a list.
#[tactic(auto, unfolding(crate::specs::Tokens::server_token))]
pub fn state_token(epoch: u64, list: ListName, version: u64) -> [u8; 20]
    ensures { result ≡ server_token epoch list version }
{
    let e = epoch.to_be_bytes();
    let v = version.to_be_bytes();
    [
        1,
        e[0],
        e[1],
        e[2],
        e[3],
        e[4],
        e[5],
        e[6],
        e[7],
        v[0],
        v[1],
        v[2],
        v[3],
        v[4],
        v[5],
        v[6],
        v[7],
        list.threat.code(),
        list.platform.code(),
        list.entry.code(),
    ]
}

// The list with these codes, where there is one.
fn list_of(codes: &[u8]) -> Option<ListName>
    requires { length codes.now ≡ 3 }
    ensures { (list : ListName) → codes.now ≡ codes_of list → result ≡ Some list }
{
    codes_name_types();
    Some(ListName {
        threat: ThreatType::from_code(codes[0])?,
        platform: PlatformType::from_code(codes[1])?,
        entry: EntryType::from_code(codes[2])?,
    })
}

// The number that eight bytes write, the highest first.
fn number_of(bytes: &[u8]) -> u64
    requires { length bytes.now ≡ 8 }
    ensures { result ≡ from_be_bytes w64 bytes.now }
{
    u64::from_be_bytes([
        bytes[0], bytes[1], bytes[2], bytes[3], bytes[4], bytes[5], bytes[6], bytes[7],
    ])
}

// Whether a state is the token of a version.
fn is_token(epoch: u64, list: ListName, version: u64, state: &[u8]) -> bool
    ensures { IsTrue result ↔ (state.now ≡ server_token epoch list version) }
{
    let token = state_token(epoch, list, version);
    state == token.as_slice()
}

/// The list and the version that a state names, in an epoch of which `len` changes are known.
/// `None` comes exactly where the state is the token of none.
pub fn read_state(epoch: u64, len: u64, state: &[u8]) -> Option<(ListName, u64)>
    ensures { (list : ListName) (version : ℕ) → (result ≡ Some (list, version))
        ↔ ((state.now ≡ server_token epoch list version) × (version ≤ len)) }
{
    if state.len() != TOKEN_LEN {
        return None;
    }
    let Some(list) = list_of(&state[17..]) else {
        return None;
    };
    let version = number_of(&state[9..17]);
    if version > len || !is_token(epoch, list, version, state) {
        return None;
    }
    Some((list, version))
}

/// Whether two names are one.
pub(crate) fn is_same(a: ListName, b: ListName) -> bool
    ensures { IsTrue result ↔ (a ≡ b) }
{
    names_go_by_their_codes();
    a.threat.code() == b.threat.code()
        && a.platform.code() == b.platform.code()
        && a.entry.code() == b.entry.code()
}

/// The version of a list that a state names, where it is the state token of one.
pub fn held_version(epoch: u64, len: u64, list: ListName, state: &[u8]) -> Option<u64>
    ensures named { (history : History) → history.epoch ≡ epoch → version_count history ≡ len
        → result ≡ version_named history (server_naming history) list state.now }
    ensures within { IfSome result (λ version. version ≤ len) }
{
    let Some((named, version)) = read_state(epoch, len, state) else {
        return None;
    };
    if !is_same(named, list) {
        return None;
    }
    Some(version)
}
