//! The full hashes of a URL: the SHA-256 sums of its expressions, by which lists have it.
#![tactic(auto)]

ghost use Rattle.std.specs.Prelude.{◌≡◌, ◌≤◌, ◌<◌, ℕ, List, length, map, All, IfOk, IfSome, OnOk};
ghost use Rattle.sha2.specs.Hashers.{Holds256};
ghost use Rattle.url_expressions.specs.Spans.{IsWithin, piece_of};
ghost use Rattle.url_hashes.specs.Hashes.{full_hash_of, hashes_of, IsWholeHash};

use hash_prefixes::{FullHash, full_hash};
use sb_model::{OutOfMemory, Row};
use sha2::{Digest, Sha256};
use std::alloc::Global;
use url_canon::CanonicalUrl;
use url_expressions::{Span, expression_spans};

// The full hash of an expression.
fn hash_of(expression: &[u8]) -> FullHash
    ensures { result ≡ full_hash_of expression.now }
{
    full_hash(expression)
}

/// A piece of a text, and its full hash.
#[derive(Clone, Copy)]
struct Hashed {
    span: Span,
    hash: FullHash,
}

// Where the next piece ends of those that begin at a place: the least end that is above another place.
fn next_end(spans: &[Span], from: usize, above: usize) -> Option<usize>
    ensures above { IfSome result (λ end. above < end) }
    ensures within { (len : ℕ) → All (IsWithin len) spans.now → IfSome result (λ end. end ≤ len) }
{
    let mut next = None;
    for span in spans {
        if span.from == from && span.to > above && is_less(span.to, next) {
            next = Some(span.to);
        }
    }
    next
}

// Whether a place is before another, if there is one.
fn is_less(place: usize, other: Option<usize>) -> bool {
    match other {
        Some(other) => place < other,
        None => true,
    }
}

// The hash of what a running sum has taken.
fn hash_so_far(sum: &Sha256) -> Result<FullHash, OutOfMemory>
    ensures { (text : List ℕ) → Holds256 sum.now text → IfOk result (λ hash. hash ≡ full_hash_of text) }
{
    let bytes = sum.clone()?.finalize();
    Ok(FullHash { bytes })
}

// Appends the hash of each piece that begins at a place. The shorter ones are fronts of the longer ones, so one running
// sum takes the text once.
fn push_fronts(
    known: &mut Vec<Hashed>,
    text: &[u8],
    spans: &[Span],
    from: usize,
) -> Result<(), OutOfMemory>
    requires spans { All (IsWithin (length text.now)) spans.now }
    requires place { from ≤ length text.now }
    ensures { All (λ one. one.hash ≡ full_hash_of (piece_of text.now one.span)) known.old.items
        → OnOk result (All (λ one. one.hash ≡ full_hash_of (piece_of text.now one.span)) known.new.items) }
{
    let mut sum = Sha256::new();
    let mut done = from;
    for _ in spans {
        let Some(to) = next_end(spans, from, done) else {
            return Ok(());
        };
        sum.update(&text[done..to]);
        let hash = hash_so_far(&sum)?;
        known.push(Hashed {
            span: Span { from, to },
            hash,
        })?;
        done = to;
    }
    Ok(())
}

// The hashes of pieces of a text, made in one pass for all that begin at one place.
fn hash_fronts(alloc: Global, text: &[u8], spans: &[Span]) -> Result<Vec<Hashed>, OutOfMemory>
    requires { All (IsWithin (length text.now)) spans.now }
    ensures { IfOk result (λ known. All (λ one. one.hash ≡ full_hash_of (piece_of text.now one.span)) known.items) }
{
    let mut known = Vec::with_capacity(alloc, spans.len())?;
    let mut last = None;
    for span in spans {
        if last != Some(span.from) {
            push_fronts(&mut known, text, spans, span.from)?;
            last = Some(span.from);
        }
    }
    Ok(known)
}

// The full hash of a piece of a text, which is looked for among those that are known.
fn hash_in(known: &[Hashed], text: &[u8], span: Span) -> FullHash
    requires known { All (λ one. one.hash ≡ full_hash_of (piece_of text.now one.span)) known.now }
    requires within { IsWithin (length text.now) span }
    ensures { result ≡ full_hash_of (piece_of text.now span) }
{
    for one in known {
        if one.span == span {
            return one.hash;
        }
    }
    hash_of(&text[span.from..span.to])
}

// The full hash of each of some pieces of a text.
fn hashes_of_each(alloc: Global, text: &[u8], spans: &[Span]) -> Result<Row<FullHash>, OutOfMemory>
    requires { All (IsWithin (length text.now)) spans.now }
    ensures { IfOk result (λ hashes. hashes ≡ map (λ span. full_hash_of (piece_of text.now span)) spans.now) }
{
    let known = hash_fronts(alloc, text, spans)?;
    let mut hashes = Row::with_capacity(alloc, spans.len())?;
    for span in spans {
        hashes.push(hash_in(&known, text, *span))?;
    }
    Ok(hashes)
}

/// The full hashes of a URL's expressions, in their order: SHA-256 sums of 32 bytes, 30 at most and one at least (Safe
/// Browsing v4, "URLs and Hashing"). Each is made once, and no expression is copied. Those of one host are fronts of one
/// text, mostly, so a host's text is hashed once, and not once for each of its paths.
pub fn url_hashes(alloc: Global, url: &CanonicalUrl) -> Result<Row<FullHash>, OutOfMemory>
    ensures value { IfOk result (λ hashes. hashes ≡ hashes_of url.now) }
    ensures whole { IfOk result (λ hashes. All IsWholeHash hashes) }
    ensures some { IfOk result (λ hashes. 1 ≤ length hashes) }
    ensures few { IfOk result (λ hashes. length hashes ≤ 30) }
{
    let spans = expression_spans(alloc, url)?;
    let hashes = hashes_of_each(alloc, url.without_scheme(), spans.as_slice())?;
    Ok(hashes)
}
