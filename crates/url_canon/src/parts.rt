ghost use Rattle.std.specs.Prelude.{◌≡◌, ◌+◌, ◌≤◌, ◌<◌, ◌==◌, Some, None, true, false, nat_eq, if◌then◌else◌, length, take, drop, MatchOption, IfSome, option_copied, codes, take_while};
ghost use Rattle.std.specs.List.{prefix_len, position_or_len, before_first, slice_split, starts_with};
ghost use Rattle.std.specs.Char.{is_ascii_alphabetic};
ghost use Rattle.std.specs.Str.{str_to_ascii_lowercase};
ghost use Rattle.url_canon.specs.Words.{begins_with, last_part};
ghost use Rattle.url_canon.specs.Parts.{is_scheme_byte, has_scheme, scheme_of, after_scheme, ends_authority, is_at, after_authority};

use crate::split::split_at_byte;
use memchr::memchr2;

/// Whether a byte may stand in a scheme after its first letter (RFC 3986, section 3.1).
fn is_scheme_byte(byte: u8) -> bool
    ensures { result ≡ is_scheme_byte byte }
{
    byte.is_ascii_alphanumeric() || byte == b'+' || byte == b'-' || byte == b'.'
}

/// How many bytes of a scheme the text begins with.
fn count_scheme_bytes(text: &[u8]) -> usize
    ensures { result ≡ prefix_len is_scheme_byte text.now }
{
    text.iter()
        .take_while(|byte| is_scheme_byte(**byte))
        .count()
}

/// Whether the text begins with a letter.
fn begins_with_letter(text: &[u8]) -> bool
    ensures { result ≡ begins_with is_ascii_alphabetic text.now }
{
    match text {
        [] => false,
        [first, ..] => first.is_ascii_alphabetic(),
    }
}

/// Whether the text begins with `://`.
fn begins_with_separator(text: &[u8]) -> bool
    ensures { result ≡ starts_with nat_eq text.now (codes "://") }
{
    text.starts_with(b"://")
}

/// How many bytes the scheme takes that a text begins with; `None` where `://` does not follow one.
#[tactic(auto, using(crate::proofs::Cuts::places))]
fn scheme_len(text: &[u8]) -> Option<usize>
    ensures { MatchOption result (has_scheme text.now ≡ false)
        (λ len. (has_scheme text.now ≡ true) × (len ≡ prefix_len is_scheme_byte text.now)
        × (len + 3 ≤ length text.now)) }
{
    let len = count_scheme_bytes(text);
    if begins_with_letter(text) && begins_with_separator(&text[len..]) {
        Some(len)
    } else {
        None
    }
}

/// The scheme, which is `http` where the text has none, and what stands after it.
#[tactic(auto, unfolding(crate::specs::Parts::scheme_of, crate::specs::Parts::after_scheme))]
pub fn split_scheme(text: &[u8]) -> (&[u8], &[u8])
    ensures scheme { str_to_ascii_lowercase result.0.now ≡ scheme_of text.now }
    ensures after { result.1.now ≡ after_scheme text.now }
{
    match scheme_len(text) {
        None => (b"http", text),
        Some(len) => (&text[..len], &text[len + 3..]),
    }
}

/// How many bytes the authority takes that a text begins with.
fn authority_len(text: &[u8]) -> usize
    ensures { result ≡ position_or_len ends_authority text.now }
{
    memchr2(b'/', b'?', text).unwrap_or(text.len())
}

/// The authority, which ends at the first `/` or `?`, and the rest from there (RFC 3986, section
/// 3.2).
#[tactic(auto, using(crate::proofs::Cuts::places), unfolding(crate::specs::Parts::after_authority))]
pub fn split_authority(text: &[u8]) -> (&[u8], &[u8])
    ensures authority { result.0.now ≡ before_first ends_authority text.now }
    ensures after { result.1.now ≡ after_authority text.now }
{
    let len = authority_len(text);
    (&text[..len], &text[len..])
}

/// What stands after the last `@`: the authority without a user and a password.
pub fn without_user(authority: &[u8]) -> &[u8]
    ensures { result.now ≡ last_part (slice_split is_at authority.now) }
{
    let mut last = authority;
    let mut rest = Some(authority);
    while let Some(parts) = rest {
        let (part, more) = split_at_byte(parts, b'@');
        last = part;
        rest = more;
    }
    last
}
