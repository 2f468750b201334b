ghost use Rattle.std.specs.Prelude.{◌≡◌, ◌⊎◌, IfOk, map, string_bytes};
ghost use Rattle.sb_client.specs.Command.{asked_text_by as asked_by_words, asked_text_of};
ghost use Rattle.sb_client.specs.Runs.{IsFaultOfStatus, IsTellRun};

use crate::texts::{CHECK_USAGE, UPDATE_USAGE};
use sb_model::{Bytes, OutOfMemory};
use sb_outside::{Failed, Sink, write_all};
use sb_words::{about_text, asked_about};
use std::alloc::Global;

/// What is to be printed of the program with this name, of which this is the usage text; `None` where the words ask nothing
/// about it.
fn asked_text_by(
    alloc: Global,
    name: &str,
    usage: &str,
    words: &[String],
) -> Result<Option<Bytes>, OutOfMemory>
    ensures { IfOk result (λ text. text ≡ asked_by_words name.now usage.now (map string_bytes words.now)) }
{
    match asked_about(words, name) {
        Some(about) => match about_text(alloc, about, name, usage) {
            Ok(text) => Ok(Some(text)),
            Err(OutOfMemory) => Err(OutOfMemory),
        },
        None => Ok(None),
    }
}

/// What is to be printed of `sbupdate` or of `sbcheck`; `None` where the words ask nothing about it.
pub(crate) fn told(alloc: Global, words: &[String]) -> Result<Option<Bytes>, OutOfMemory>
    ensures { IfOk result (λ text. text ≡ asked_text_of (map string_bytes words.now)) }
{
    match asked_text_by(alloc, "sbupdate", UPDATE_USAGE, words) {
        Ok(Some(text)) => Ok(Some(text)),
        Ok(None) => asked_text_by(alloc, "sbcheck", CHECK_USAGE, words),
        Err(OutOfMemory) => Err(OutOfMemory),
    }
}

/// Writes what the words asked for, and answers the exit status.
pub(crate) fn tell_status<O: Sink>(text: &Bytes, out: &mut O) -> u8
    ensures tells { IsTellRun text.now result (O.contents out.old) (O.contents out.new) }
    ensures ends { (result ≡ 0) ⊎ (result ≡ 3) }
    ensures written { IsFaultOfStatus 3 result (O.faults out.old) (O.faults out.new) }
{
    match write_all(out, text.as_slice()) {
        Ok(()) => 0,
        Err(Failed) => 3,
    }
}
