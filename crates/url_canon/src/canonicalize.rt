ghost use Rattle.std.specs.Prelude.{◌≡◌, ◌≢◌, Err, None, ℕ, ◌<◌, ◌≤◌, ◌↔◌, List, [], ◌++◌, length, IfOk, OnOk, IsErrOf, option_map, option_copied};
ghost use Rattle.url_canon.specs.Cleaning.{is_hash, without_fragment, trimmed};
ghost use Rattle.std.specs.List.{before_first};
ghost use Rattle.url_canon.specs.Url.{query_text};
ghost use Rattle.url_canon.specs.Escaping.{escaped};
ghost use Rattle.url_canon.specs.Unescaping.{HasNoEscape, IsUnescapedOf, unescaped};
ghost use Rattle.url_canon.specs.Canonical.{host_in, url_parts_of, escaped_parts, canonical_of_cleaned, canonical_of, Answers};

use crate::UrlFault;
use crate::escape::append_escaped;
use crate::host::{append_lowercase, host_of};
use crate::parts::{split_authority, split_scheme, without_user};
use crate::path::append_path;
use crate::split::split_at_byte;
use crate::strip::{before_hash, has_line_byte, trimmed, without_line_bytes};
use crate::unescape::unescaped;
use crate::url::CanonicalUrl;
use memchr::memchr;
use sb_model::{Bytes, OutOfMemory};
use std::alloc::Global;

/// The most bytes that a URL may have.
const MAX_LEN: usize = 8192;

/// How many bytes a URL may take more than its text, but for what is escaped: a scheme, a slash
/// and the decimals of an address.
const SPARE: usize = 32;

/// A buffer with room for the canonical text of an unescaped text in which nothing is escaped.
fn room_for(alloc: Global, plain: &[u8]) -> Result<Bytes, OutOfMemory>
    ensures { IfOk result (λ out. out ≡ []) }
{
    Bytes::with_capacity(alloc, plain.len().saturating_add(SPARE))
}

/// Appends a query, escaped and after a `?`, where there is one.
fn append_query(out: &mut Bytes, query: Option<&[u8]>) -> Result<(), OutOfMemory>
    ensures { OnOk result (out.new
        ≡ out.old ++ query_text (option_map escaped (option_copied query.entry))) }
{
    let Some(query) = query else {
        return Ok(());
    };
    out.push(b'?')?;
    append_escaped(out, query)
}

/// The canonical URL of a text that is unescaped.
fn canonical_of_plain(alloc: Global, plain: &[u8]) -> Result<CanonicalUrl, UrlFault>
    requires { HasNoEscape plain.now }
    ensures { Answers result (escaped_parts (url_parts_of plain.now)) }
{
    let (scheme, rest) = split_scheme(plain);
    let (authority, tail) = split_authority(rest);
    let Some(host) = host_of(alloc, without_user(authority))? else {
        return Err(UrlFault::NoHost);
    };
    let (path, query) = split_at_byte(tail, b'?');
    let mut text = room_for(alloc, plain)?;
    append_lowercase(&mut text, scheme)?;
    text.append(b"://")?;
    let host_at = text.len();
    append_escaped(&mut text, host.text.as_slice())?;
    let path_at = text.len();
    append_path(&mut text, alloc, path)?;
    let query_at = text.len();
    append_query(&mut text, query)?;
    Ok(CanonicalUrl::new(text, host_at, path_at, query_at, host.is_address))
}

/// The canonical URL of a text without tabs and line ends.
fn canonical_of_line(alloc: Global, line: &[u8]) -> Result<CanonicalUrl, UrlFault>
    ensures { Answers result (canonical_of_cleaned (trimmed (before_first is_hash line.now))) }
{
    let kept = trimmed(before_hash(line));
    if kept.is_empty() {
        return Err(UrlFault::Empty);
    }
    if memchr(b'%', kept).is_none() {
        return canonical_of_plain(alloc, kept);
    }
    let plain = unescaped(alloc, kept)?;
    canonical_of_plain(alloc, plain.as_slice())
}

/// The canonical URL of a text of at most 8,192 bytes.
///
/// `TooLong` is looked at first. `Empty` comes where nothing is left of the text without its
/// fragment, its tabs and line ends and the spaces around it, and `NoHost` where the authority
/// without its user and its port has only dots, also where ToASCII made them or left nothing.
pub fn canonical(alloc: Global, text: &[u8]) -> Result<CanonicalUrl, UrlFault>
    ensures exact { Answers result (canonical_of text.now) }
    // Whichever steps unescape what is kept of the text, they lead to its URL.
    ensures steps { (plain : List ℕ) → length text.now ≤ 8192
        → 0 < length (trimmed (without_fragment text.now))
        → IsUnescapedOf (trimmed (without_fragment text.now)) plain
        → Answers result (escaped_parts (url_parts_of plain)) }
    ensures too_long { IsErrOf result (UrlFault.TooLong (length text.now))
        ↔ (8192 < length text.now) }
    ensures empty { result ≢ Err UrlFault.OutOfMemory → (IsErrOf result UrlFault.Empty
        ↔ ((length text.now ≤ 8192) × (trimmed (without_fragment text.now) ≡ []))) }
    ensures no_host { result ≢ Err UrlFault.OutOfMemory → (IsErrOf result UrlFault.NoHost
        ↔ ((length text.now ≤ 8192) × (trimmed (without_fragment text.now) ≢ [])
        × (host_in (unescaped (trimmed (without_fragment text.now))) ≡ None))) }
{
    if text.len() > MAX_LEN {
        return Err(UrlFault::TooLong(text.len()));
    }
    if !has_line_byte(text) {
        return canonical_of_line(alloc, text);
    }
    let line = without_line_bytes(alloc, text)?;
    canonical_of_line(alloc, line.as_slice())
}
