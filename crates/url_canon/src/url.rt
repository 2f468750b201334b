ghost use Rattle.std.specs.Prelude.{◌≡◌, ◌≢◌, ◌≤◌, ◌++◌, All, length, Ok, IfOk, option_map};
ghost use Rattle.url_canon.specs.Path.{path_text, IsNormalPath};
ghost use Rattle.url_canon.specs.Url.{query_text, text_of_url, url_at_places, IsLaidOut};
ghost use Rattle.url_canon.specs.Canonical.{canonical_of, IsCanonical};

use sb_model::{Bytes, OutOfMemory};
use std::alloc::Global;
use std::marker::Model;

/// A URL in its canonical spelling. Contracts see it as its parts, each of them escaped: the path
/// as its components, without their slashes.
#[derive(Debug, Drop)]
pub struct CanonicalUrl {
    /// The whole text. Each part is a piece of it.
    text: Bytes,
    host_at: usize,
    path_at: usize,
    /// Where the path ends. There stands the `?` of a query, or the text ends.
    query_at: usize,
    is_address: bool,
}

impl Model for CanonicalUrl {
    ghost use Rattle.url_canon.specs.Url.{Url, url_at_places, IsLaidOut};
    ghost use Rattle.url_canon.specs.Canonical.{IsCanonical};

    ghost Value = { Url };

    ghost view = { λ url.
        url_at_places url.text url.host_at url.path_at url.query_at url.is_address };

    ghost invariant = { λ url.
        IsLaidOut url.text url.host_at url.path_at url.query_at
        (url_at_places url.text url.host_at url.path_at url.query_at url.is_address)
        × IsCanonical
        (url_at_places url.text url.host_at url.path_at url.query_at url.is_address) };
}

impl CanonicalUrl {
    /// The URL of a text whose parts begin at these places.
    pub(crate) fn new(
        text: Bytes,
        host_at: usize,
        path_at: usize,
        query_at: usize,
        is_address: bool,
    ) -> Self
        requires places { IsLaidOut text host_at path_at query_at
            (url_at_places text host_at path_at query_at is_address) }
        requires canonical { IsCanonical (url_at_places text host_at path_at query_at is_address) }
        ensures { result ≡ url_at_places text host_at path_at query_at is_address }
    {
        CanonicalUrl {
            text,
            host_at,
            path_at,
            query_at,
            is_address,
        }
    }

    /// The host: a name in lower case, an IPv4 address as four decimals, or a bracketed host.
    pub fn host(&self) -> &[u8]
        ensures value { result.now ≡ self.now.host }
        ensures no_slash { All (λ byte. byte ≢ 47) self.now.host }
    {
        &self.text.as_slice()[self.host_at..self.path_at]
    }

    /// The path, which begins with a slash.
    pub fn path(&self) -> &[u8]
        ensures value { result.now ≡ path_text self.now.path }
        // There is a component, none has a slash, none is `.` or `..`, and none but the last is
        // empty.
        ensures normal { IsNormalPath self.now.path }
    {
        &self.text.as_slice()[self.path_at..self.query_at]
    }

    /// The query without its `?`, which may be empty; `None` where the URL has no `?`.
    pub fn query(&self) -> Option<&[u8]>
        ensures { option_map (λ query. query.now) result ≡ self.now.query }
    {
        match &self.text.as_slice()[self.query_at..] {
            [] => None,
            [_, query @ ..] => Some(query),
        }
    }

    /// The host, the path, and where there is a query a `?` and the query: the text without its
    /// scheme and the `://` after it.
    pub fn without_scheme(&self) -> &[u8]
        ensures { result.now
            ≡ self.now.host ++ (path_text self.now.path ++ query_text self.now.query) }
    {
        &self.text.as_slice()[self.host_at..]
    }

    /// Whether the host is an IPv4 address or stands in brackets.
    pub fn is_address(&self) -> bool
        ensures { result ≡ self.now.is_address }
    {
        self.is_address
    }

    /// The text of the URL: the scheme, `://`, the host, the path, and where there is a query `?`
    /// and the query.
    pub fn as_bytes(&self) -> &[u8]
        ensures value { result.now ≡ text_of_url self.now }
        ensures again { length result.now ≤ 8192 → canonical_of result.now ≡ Ok self.now }
    {
        self.text.as_slice()
    }

    /// A copy of the text of the URL.
    pub fn text(&self, alloc: Global) -> Result<Bytes, OutOfMemory>
        ensures value { IfOk result (λ text. text ≡ text_of_url self.now) }
        ensures again { IfOk result (λ text. length text ≤ 8192 → canonical_of text ≡ Ok self.now) }
    {
        Bytes::from_slice(alloc, self.as_bytes())
    }

    /// The text of the URL, without a copy.
    pub fn into_text(self) -> Bytes
        ensures value { result ≡ text_of_url self }
        ensures again { length result ≤ 8192 → canonical_of result ≡ Ok self }
    {
        self.text
    }
}
