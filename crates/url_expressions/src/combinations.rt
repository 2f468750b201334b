ghost use Rattle.std.specs.Prelude.{◌≡◌, ◌+◌, ◌-◌, ◌≤◌, ℕ, List, All, ◌++◌, length, take, drop, map, IfOk, OnOk};
ghost use Rattle.std.specs.List.{IsDistinct};
ghost use Rattle.std.specs.Str.{bytes_eq};
ghost use Rattle.url_expressions.specs.Expressions.{expressions_of};
ghost use Rattle.url_expressions.specs.Spans.{IsWithin, piece_of, text_behind_scheme};

use crate::Span;
use crate::hosts::host_places;
use crate::paths::path_lens;
use sb_model::{Bytes, OutOfMemory, Row};
use std::alloc::Global;
use url_canon::CanonicalUrl;

/// Appends the pieces of a text of so many bytes that begin at a place and hold what stands before the paths, and then each path.
fn push_spans(
    all: &mut Row<Span>,
    whole: usize,
    from: usize,
    path_at: usize,
    path_lens: &[usize],
) -> Result<(), OutOfMemory>
    requires in_order { from ≤ path_at }
    requires fit { All (λ len. path_at + len ≤ whole) path_lens.now }
    ensures pieces { (text : List ℕ) → OnOk result (map (piece_of text) all.new ≡ map (piece_of text) all.old
        ++ map (λ len. take (path_at - from + len) (drop from text)) path_lens.now) }
    ensures within { All (IsWithin whole) all.old → OnOk result (All (IsWithin whole) all.new) }
{
    for path_len in path_lens {
        let to = path_at + *path_len;
        prove!(to <= whole);
        all.push(Span { from, to })?;
    }
    Ok(())
}

/// The expressions of a URL as pieces of its text without its scheme: each of its hosts with each of its paths, of equal ones
/// the first.
///
/// Hosts and paths are freed of repeats apart. That serves, since no host has a slash and each path
/// begins with one: two combinations are equal only where both parts are.
pub fn expression_spans(alloc: Global, url: &CanonicalUrl) -> Result<Row<Span>, OutOfMemory>
    ensures exact { IfOk result (λ spans. map (piece_of (text_behind_scheme url.now)) spans ≡ expressions_of url.now) }
    ensures within { IfOk result (λ spans. All (IsWithin (length (text_behind_scheme url.now))) spans) }
    ensures some { IfOk result (λ spans. 1 ≤ length spans) }
    ensures most { IfOk result (λ spans. length spans ≤ 30) }
{
    let text = url.without_scheme();
    let host = url.host();
    let places = host_places(alloc, host, url.is_address())?;
    let lens = path_lens(alloc, url.path(), &text[host.len()..])?;
    let mut all = Row::with_capacity(alloc, places.len().saturating_mul(lens.len()))?;
    for place in &places {
        push_spans(&mut all, text.len(), *place, host.len(), &lens)?;
    }
    Ok(all)
}

/// Copies of pieces of a text.
fn copies_of(alloc: Global, text: &[u8], spans: &[Span]) -> Result<Row<Bytes>, OutOfMemory>
    requires { All (IsWithin (length text.now)) spans.now }
    ensures { IfOk result (λ all. all ≡ map (piece_of text.now) spans.now) }
{
    let mut all = Row::with_capacity(alloc, spans.len())?;
    for span in spans {
        all.push(Bytes::from_slice(alloc, &text[span.from..span.to])?)?;
    }
    Ok(all)
}

/// The expressions of a URL: each of its hosts with each of its paths, of equal ones the first. `expression_spans` gives them
/// as pieces of the URL's text, and copies none.
pub fn expressions(alloc: Global, url: &CanonicalUrl) -> Result<Row<Bytes>, OutOfMemory>
    ensures exact { IfOk result (λ all. all ≡ expressions_of url.now) }
    ensures distinct { IfOk result (λ all. IsDistinct bytes_eq all) }
    ensures some { IfOk result (λ all. 1 ≤ length all) }
    ensures most { IfOk result (λ all. length all ≤ 30) }
{
    let spans = expression_spans(alloc, url)?;
    let all = copies_of(alloc, url.without_scheme(), spans.as_slice())?;
    Ok(all)
}
