ghost use Rattle.std.specs.Prelude.{◌≡◌, ◌&&◌, ◌≤◌, ℕ, Some, option_map, string_bytes, IfOk, IfSome};
ghost use Rattle.std.specs.Str.{bytes_eq};
ghost use Rattle.client_words.specs.Asking.{asking_given, asking_of, key_given as key_of_words, limit_given, number_given, options_given, server_given, target_of as target_asked};

use http_edge::Target;
use sb_model::{OutOfMemory, Text};
use sb_words::{Words, host_port, key, number};
use std::alloc::Global;
use update_client::FetchOptions;

/// The most entries of a limit.
const MOST_ENTRIES: u64 = 2_147_483_647;

/// What the words say of the store and of the server, and what is asked for.
#[derive(Clone, Copy, Debug)]
pub struct Asking<'a> {
    /// The path of the store.
    pub store: &'a str,
    /// The address of the server.
    pub server: &'a str,
    /// The key, empty where there is none.
    pub key: &'a str,
    pub options: FetchOptions,
    pub need_digest: bool,
}

/// Whether the first two words are these.
pub fn are_words(program: &String, command: &String, first: &str, second: &str) -> bool
    ensures { result ≡ (bytes_eq (string_bytes program.now) first.now && bytes_eq (string_bytes command.now) second.now) }
{
    program.as_str() == first && command.as_str() == second
}

/// The server that the words give.
fn server_in<'a>(given: &Words<'a>) -> Option<&'a str>
    ensures { option_map (λ server. server.now) result ≡ server_given given.now.named }
{
    let server = given.value("server")?;
    match host_port(server) {
        Some(_) => Some(server),
        None => None,
    }
}

/// The key that the words give, empty where they give none.
fn key_in<'a>(given: &Words<'a>) -> Option<&'a str>
    ensures { option_map (λ text. text.now) result ≡ key_of_words given.now.named }
{
    let Some(text) = given.value("key") else {
        return Some("");
    };
    if key(text) {
        return Some(text);
    }
    None
}

/// The number that the words give an option, in its range, or its default.
pub fn number_in(given: &Words<'_>, name: &str, low: u64, high: u64, default: u64) -> Option<u64>
    requires { default ≤ high }
    ensures number { result ≡ number_given name.now low high default given.now.named }
    ensures small { IfSome result (λ number. number ≤ high) }
{
    let Some(text) = given.value(name) else {
        return Some(default);
    };
    number(text, low, high)
}

/// The limit that the words give an option, or its default.
fn limit(given: &Words<'_>, name: &str, default: u32) -> Option<u32>
    requires { default ≤ 2147483647 }
    ensures limit { result ≡ limit_given name.now default given.now.named }
    ensures small { IfSome result (λ entries. entries ≤ 2147483647) }
{
    match number_in(given, name, 0, MOST_ENTRIES, default as u64) {
        Some(entries) => Some(entries as u32),
        None => None,
    }
}

/// What the words ask for beside the lists.
fn options_in(given: &Words<'_>) -> Option<FetchOptions>
    ensures { result ≡ options_given given.now.named }
{
    let max_update = limit(given, "max-update", 0)?;
    let max_database = limit(given, "max-database", 1_048_576)?;
    Some(FetchOptions {
        max_update,
        max_database,
        raw_only: given.has("raw-only"),
    })
}

/// What the words say of the store and of the server, and what they ask for.
pub fn asking_in<'a>(given: &Words<'a>) -> Option<Asking<'a>>
    ensures { option_map (λ asking. asking_of asking.store.now asking.server.now asking.key.now asking.options asking.need_digest) result
        ≡ asking_given given.now.named }
{
    let store = given.value("store")?;
    let server = server_in(given)?;
    let key = key_in(given)?;
    let options = options_in(given)?;
    Some(Asking {
        store,
        server,
        key,
        options,
        need_digest: !given.has("no-digest"),
    })
}

/// Whom the client asks.
pub fn target_of(alloc: Global, asking: &Asking<'_>) -> Result<Target, OutOfMemory>
    ensures { IfOk result (λ target. target
        ≡ target_asked (asking_of asking.now.store.now asking.now.server.now asking.now.key.now asking.now.options asking.now.need_digest)) }
{
    let host = Text::from_str(alloc, asking.server)?;
    let key = Text::from_str(alloc, asking.key)?;
    Ok(Target { host, key })
}
