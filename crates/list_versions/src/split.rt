ghost use Rattle.std.specs.Prelude.{◌≡◌, position, IfOk, IfSome, IfNone, OnErr};
ghost use Rattle.list_versions.specs.Lines.{is_newline};
ghost use Rattle.list_versions.specs.Split.{IsLine, IsFront, IsLong};

use memchr::memchr;

/// The most bytes of a line.
const MOST_LINE: usize = 128;

/// A line passes 128 bytes.
#[derive(Clone, Copy, Debug)]
pub struct LongLine;

// The place of the first newline.
fn newline_in(text: &[u8]) -> Option<usize>
    ensures { result ≡ position is_newline text.now }
{
    memchr(b'\n', text)
}

/// The first line and what stands after its newline; `None` where no line has ended.
pub fn next_line(bytes: &[u8]) -> Result<Option<(&[u8], &[u8])>, LongLine>
    ensures whole { IfOk result (λ found. IfSome found (λ halves. IsLine bytes.now halves.0.now halves.1.now)) }
    ensures front { IfOk result (λ found. IfNone found (IsFront bytes.now)) }
    ensures long { OnErr result (IsLong bytes.now) }
{
    let window = &bytes[..bytes.len().min(MOST_LINE + 1)];
    match newline_in(window) {
        Some(at) => Ok(Some((&bytes[..at], &bytes[at + 1..]))),
        None if bytes.len() > MOST_LINE => Err(LongLine),
        None => Ok(None),
    }
}
