ghost use Rattle.std.specs.Prelude.{◌≡◌, not, filter, IfOk};
ghost use Rattle.std.specs.List.{before_first, list_any};
ghost use Rattle.url_canon.specs.Words.{without_trailing};
ghost use Rattle.url_canon.specs.Cleaning.{is_line_byte, is_hash, is_space, trimmed};

use crate::split::{split_at_byte, without_leading};
use memchr::memchr3;
use sb_model::OutOfMemory;
use std::alloc::Global;

/// Whether a byte is a tab or ends a line.
fn is_line_byte(byte: u8) -> bool
    ensures { result ≡ is_line_byte byte }
{
    byte == b'\t' || byte == b'\n' || byte == b'\r'
}

/// Whether a text has a tab or an end of a line.
pub fn has_line_byte(text: &[u8]) -> bool
    ensures { result ≡ list_any is_line_byte text.now }
{
    memchr3(b'\t', b'\n', b'\r', text).is_some()
}

/// The text without tabs and line ends.
pub fn without_line_bytes(alloc: Global, text: &[u8]) -> Result<Vec<u8>, OutOfMemory>
    ensures { IfOk result (λ kept. kept.items ≡ filter (λ byte. not (is_line_byte byte)) text.now) }
{
    Ok(
        text.iter()
            .copied()
            .filter(|byte| !is_line_byte(*byte))
            .collect(alloc)?,
    )
}

/// The text before its first `#`.
pub fn before_hash(text: &[u8]) -> &[u8]
    ensures { result.now ≡ before_first is_hash text.now }
{
    split_at_byte(text, b'#').0
}

/// The text without the spaces at its end.
fn without_trailing_spaces(text: &[u8]) -> &[u8]
    ensures { result.now ≡ without_trailing is_space text.now }
{
    let mut end = text.len();
    while end > 0 && text[end - 1] == b' ' {
        end -= 1;
    }
    &text[..end]
}

/// The text without the spaces at its ends.
#[tactic(auto, unfolding(crate::specs::Cleaning::trimmed))]
pub fn trimmed(text: &[u8]) -> &[u8]
    ensures { result.now ≡ trimmed text.now }
{
    without_trailing_spaces(without_leading(text, b' '))
}
