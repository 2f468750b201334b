ghost use Rattle.std.specs.Prelude.{◌≡◌, ◌≢◌, ℕ, ◌<◌, ◌≤◌, List, length, Option, vec_len, IfOk, OnErr, IsErrOf};
ghost use Rattle.sb_outside.specs.Outside.{Rose, GivesFront, AnswersEnd};
ghost use Rattle.sb_outside.specs.Reading.{GrowsBy, ReadsToEnd, GivesSome, GivesAtMost, GivesMoreThan};

use crate::Source;
use sb_model::{Bytes, OutOfMemory};
use std::alloc::Global;
use std::error::Error;
use std::fmt;

/// How many bytes a read asks for.
const PIECE: usize = 262_144;

/// Why a piece was not read.
#[derive(Clone, Copy, Debug, PartialEq, Eq, Hash)]
pub enum ReadFault {
    /// The source failed.
    Failed,
    OutOfMemory,
}

impl fmt::Display for ReadFault {
    fn fmt<W: fmt::Write>(&self, f: &mut fmt::Formatter<W>) -> fmt::Result {
        f.write_str(match self {
            ReadFault::Failed => "a source failed",
            ReadFault::OutOfMemory => "out of memory",
        })
    }
}

impl Error for ReadFault {}

/// Why an input was not read to its end.
#[derive(Clone, Copy, Debug, PartialEq, Eq, Hash)]
pub enum InputFault {
    /// The source failed.
    Failed,
    /// More bytes came than the input may have.
    PastLimit,
    OutOfMemory,
}

impl fmt::Display for InputFault {
    fn fmt<W: fmt::Write>(&self, f: &mut fmt::Formatter<W>) -> fmt::Result {
        f.write_str(match self {
            InputFault::Failed => "a source failed",
            InputFault::PastLimit => "an input is too long",
            InputFault::OutOfMemory => "out of memory",
        })
    }
}

impl Error for InputFault {}

/// Reads once, by way of the buffer, and appends what came to the text. Says how many bytes came: none for
/// a buffer that is not empty is an end of input.
pub fn read_piece<S: Source>(
    source: &mut S,
    buffer: &mut [u8],
    text: &mut Bytes,
) -> Result<usize, ReadFault>
    ensures within { IfOk result (λ n. n ≤ length buffer.new) }

    // What came, and at an end of input or an error the text stays.
    ensures bytes { IfOk result (λ n. 0 < n →
        GrowsBy n text.old text.new (S.left source.old) (S.left source.new)) }
    ensures end { IfOk result (λ n. n ≡ 0 → 0 < length buffer.new →
        AnswersEnd (S.left source.old) (S.left source.new)) }
    ensures none { IfOk result (λ n. n ≡ 0 → text.new ≡ text.old) }
    ensures err { OnErr result (text.new ≡ text.old) }
    ensures failed_left { IsErrOf result ReadFault.Failed → S.left source.new ≡ S.left source.old }
    ensures refused_left { IsErrOf result ReadFault.OutOfMemory →
        GivesSome (S.left source.old) (S.left source.new) }
    ensures refused_most { IsErrOf result ReadFault.OutOfMemory →
        GivesAtMost (length buffer.new) (S.left source.old) (S.left source.new) }

    // Where the text is what the source gave since some start, it is that afterwards, or the whole.
    ensures so_far { IfOk result (λ n. 0 < n → (start : Option (List (List ℕ))) →
        GivesFront text.old start (S.left source.old) → GivesFront text.new start (S.left source.new)) }
    ensures whole { IfOk result (λ n. n ≡ 0 → 0 < length buffer.new → (start : Option (List (List ℕ))) →
        GivesFront text.old start (S.left source.old) → ReadsToEnd text.new start (S.left source.new)) }
    ensures so_far_refused { IsErrOf result ReadFault.OutOfMemory → (start : Option (List (List ℕ))) →
        GivesFront text.old start (S.left source.old) → GivesSome start (S.left source.new) }

    // A fault is counted, and nothing else is.
    ensures kept { result ≢ Err ReadFault.Failed → S.faults source.new ≡ S.faults source.old }
    ensures counted { S.faults source.old ≤ S.faults source.new }
    ensures failed { IsErrOf result ReadFault.Failed → Rose (S.faults source.old) (S.faults source.new) }
    ensures other { S.back source.new ≡ S.back source.old }
{
    let Ok(count) = source.read(buffer) else {
        return Err(ReadFault::Failed);
    };
    if count == 0 {
        return Ok(0);
    }
    match text.append(&buffer[..count]) {
        Ok(()) => Ok(count),
        Err(OutOfMemory) => Err(ReadFault::OutOfMemory),
    }
}

fn buffer_of(alloc: Global) -> Result<Vec<u8>, OutOfMemory>
    ensures { IfOk result (λ buffer. vec_len buffer ≡ PIECE) }
{
    Ok(vec![in alloc; 0; PIECE]?)
}

/// Reads the input to its next end, in large pieces. The input may have `limit` bytes: reading goes on until
/// more came, so the source may have given up to 262,144 bytes past the limit.
pub fn read_to_end<S: Source>(
    alloc: Global,
    source: &mut S,
    limit: usize,
) -> Result<Bytes, InputFault>
    ensures whole { IfOk result (λ text. ReadsToEnd text (S.left source.old) (S.left source.new)) }
    ensures within { IfOk result (λ text. length text ≤ limit) }
    ensures failed_left { IsErrOf result InputFault.Failed →
        GivesAtMost limit (S.left source.old) (S.left source.new) }
    ensures past { IsErrOf result InputFault.PastLimit →
        GivesMoreThan limit (S.left source.old) (S.left source.new) }
    ensures refused_left { IsErrOf result InputFault.OutOfMemory →
        GivesSome (S.left source.old) (S.left source.new) }

    // A fault is counted, and nothing else is.
    ensures kept { result ≢ Err InputFault.Failed → S.faults source.new ≡ S.faults source.old }
    ensures counted { S.faults source.old ≤ S.faults source.new }
    ensures failed { IsErrOf result InputFault.Failed → Rose (S.faults source.old) (S.faults source.new) }
    ensures other { S.back source.new ≡ S.back source.old }
{
    let Ok(mut buffer) = buffer_of(alloc) else {
        return Err(InputFault::OutOfMemory);
    };
    let mut text = Bytes::new(alloc);
    while text.len() <= limit {
        match read_piece(source, buffer.as_mut_slice(), &mut text) {
            Ok(0) => return Ok(text),
            Ok(_) => {}
            Err(ReadFault::Failed) => return Err(InputFault::Failed),
            Err(ReadFault::OutOfMemory) => return Err(InputFault::OutOfMemory),
        }
    }
    Err(InputFault::PastLimit)
}
