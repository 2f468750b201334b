ghost use Rattle.std.specs.Prelude.{◌≡◌, ◌≢◌, ◌<◌, ◌≤◌, [], ◌∷◌, length, count_by, position, vec_len, IfOk, OnOk, OnErr, IsErrOf};
ghost use Rattle.sb_outside.specs.Outside.{Rose};
ghost use Rattle.input_lines.specs.Lines.{is_newline, lines_of, IsInputWithinLimits};
ghost use Rattle.sb_outside.specs.Reading.{ReadsToEnd};
ghost use Rattle.input_lines.specs.Input.{GivesWithin, GivesPast};

use memchr::memchr;
use sb_model::Bytes;
use sb_outside::{InputFault, ReadFault, Source, read_piece};
use std::alloc::{AllocError, Global};

/// The most bytes of an input.
pub const MAX_INPUT: usize = 201_326_592;

/// The most lines of an input.
pub const MAX_LINES: usize = 65_536;

/// How many bytes a read asks for.
const PIECE: usize = 262_144;

fn count_newlines(bytes: &[u8]) -> usize
    ensures { result ≡ count_by is_newline bytes.now }
{
    match first_newline(bytes) {
        Some(_) => bytes.iter().filter(|byte| **byte == b'\n').count(),
        None => 0,
    }
}

/// How many lines a text has, in which so many are ended.
fn count_lines(text: &[u8], ended: usize) -> usize
    requires { ended ≡ count_by is_newline text.now }
    ensures { result ≡ length (lines_of text.now) }
{
    let Some(last) = text.last() else {
        return ended;
    };
    if *last == b'\n' {
        return ended;
    }
    ended + 1
}

fn buffer_of(alloc: Global) -> Result<Vec<u8>, AllocError>
    ensures { IfOk result (λ buffer. vec_len buffer ≡ PIECE) }
{
    vec![in alloc; 0; PIECE]
}

/// Reads the input to its next end, in large pieces. It may have at most 201,326,592 bytes and 65,536 lines.
///
/// # Errors
///
/// `Failed` where the source failed, `PastLimit` where it gave more before it came to an end, and `OutOfMemory`.
pub fn read_input<S: Source>(alloc: Global, input: &mut S) -> Result<Bytes, InputFault>
    ensures whole { IfOk result (λ text. ReadsToEnd text (S.left input.old) (S.left input.new)) }
    ensures within { IfOk result IsInputWithinLimits }
    ensures failed { IsErrOf result InputFault.Failed → Rose (S.faults input.old) (S.faults input.new)
        × GivesWithin (S.left input.old) (S.left input.new) }
    ensures past { IsErrOf result InputFault.PastLimit → GivesPast (S.left input.old) (S.left input.new) }
    ensures kept { result ≢ Err InputFault.Failed → S.faults input.new ≡ S.faults input.old }
{
    let Ok(mut buffer) = buffer_of(alloc) else {
        return Err(InputFault::OutOfMemory);
    };
    let mut text = Bytes::new(alloc);
    let mut ended = 0;
    while text.len() <= MAX_INPUT {
        let before = text.len();
        match read_piece(input, buffer.as_mut_slice(), &mut text) {
            Ok(0) => return Ok(text),
            Ok(_) => {}
            Err(ReadFault::Failed) => return Err(InputFault::Failed),
            Err(ReadFault::OutOfMemory) => return Err(InputFault::OutOfMemory),
        }
        ended += count_newlines(&text.as_slice()[before..]);
        if count_lines(text.as_slice(), ended) > MAX_LINES {
            return Err(InputFault::PastLimit);
        }
    }
    Err(InputFault::PastLimit)
}

fn first_newline(text: &[u8]) -> Option<usize>
    ensures { result ≡ position is_newline text.now }
{
    memchr(b'\n', text)
}

/// The first line of a text that has some byte, without its newline, and what stands after that.
pub fn first_line(text: &[u8]) -> (&[u8], &[u8])
    requires { 0 < length text.now }
    ensures lines { lines_of text.now ≡ result.0.now ∷ lines_of result.1.now }
    ensures shorter { length result.1.now < length text.now }
{
    match first_newline(text) {
        Some(end) => (&text[..end], &text[end + 1..]),
        None => (text, &[]),
    }
}
