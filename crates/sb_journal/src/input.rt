ghost use Rattle.std.specs.Prelude.{◌≡◌, ◌≢◌, ◌<◌, ◌∷◌, length, position, Err, IsErrOf};
ghost use Rattle.std.specs.Str.Lines.{lines, strip_carriage_return};
ghost use Rattle.sb_outside.specs.Outside.{Rose};
ghost use Rattle.input_lines.specs.Lines.{is_newline};
ghost use Rattle.sb_journal.specs.Inputs.{InputOutcome};

use sb_model::Bytes;
use sb_outside::{InputFault, Source, read_to_end};
use std::alloc::Global;

/// The most bytes of an input.
const MOST_INPUT: usize = 201_326_592;

/// The most lines of an input that has URLs.
const MOST_LINES: usize = 2_097_152;

fn first_newline(text: &[u8]) -> Option<usize>
    ensures { result ≡ position is_newline text.now }
{
    text.iter().position(|byte| *byte == b'\n')
}

/// A line that a newline ended, without a carriage return at its end.
fn without_return(line: &[u8]) -> &[u8]
    ensures { result.now ≡ strip_carriage_return line.now }
{
    if line.is_empty() {
        return line;
    }
    let last = line.len() - 1;
    if line[last] == b'\r' {
        &line[..last]
    } else {
        line
    }
}

/// The first line of a text that has some byte, without the LF or CR LF that ends it, and what stands after that.
pub fn next_line(text: &[u8]) -> (&[u8], &[u8])
    requires { 0 < length text.now }
    ensures lines { lines text.now ≡ result.0.now ∷ lines result.1.now }
    ensures shorter { length result.1.now < length text.now }
{
    match first_newline(text) {
        Some(end) => (without_return(&text[..end]), &text[end + 1..]),
        None => (text, &[]),
    }
}

/// How many lines a text has.
fn count_lines(text: &[u8]) -> usize
    ensures { result ≡ length (lines text.now) }
{
    let mut count = 0;
    let mut rest = text;
    while !rest.is_empty() {
        let (_, tail) = next_line(rest);
        count += 1;
        rest = tail;
    }
    count
}

/// Reads an input of URLs to its next end. It may have at most 201,326,592 bytes and 2,097,152 lines.
pub fn read_urls<S: Source>(alloc: Global, input: &mut S) -> Result<Bytes, InputFault>
    ensures outcome { result ≢ Err InputFault.OutOfMemory → InputOutcome result (S.left input.old) (S.left input.new) }
    ensures failed { IsErrOf result InputFault.Failed → Rose (S.faults input.old) (S.faults input.new) }
    ensures kept { result ≢ Err InputFault.Failed → S.faults input.new ≡ S.faults input.old }
{
    match read_to_end(alloc, input, MOST_INPUT) {
        Ok(text) => {
            if count_lines(text.as_slice()) > MOST_LINES {
                return Err(InputFault::PastLimit);
            }
            Ok(text)
        }
        Err(fault) => Err(fault),
    }
}
