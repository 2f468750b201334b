ghost use Rattle.std.specs.Prelude.{◌≡◌, map, string_bytes};
ghost use Rattle.sb_client.specs.Runs.{TellsUsage};
ghost use Rattle.sb_client.specs.Usage.{usage_of};

use crate::texts::{CHECK_USAGE, UPDATE_USAGE};
use sb_outside::{Sink, write_all};

/// The usage text of the program that the words begin with.
fn usage_in(words: &[String]) -> &'static str
    ensures { result.now ≡ usage_of (map string_bytes words.now) }
{
    match words {
        [program, ..] if program.as_str() == "sbcheck" => CHECK_USAGE,
        _ => UPDATE_USAGE,
    }
}

/// Tells how the program is used that the words begin with.
pub(crate) fn tell_usage<O: Sink>(words: &[String], out: &mut O) -> u8
    ensures status { result ≡ 1 }
    ensures usage { TellsUsage (usage_of (map string_bytes words.now)) (O.contents out.old) (O.contents out.new) (O.faults out.old) (O.faults out.new) }
{
    match write_all(out, usage_in(words).as_bytes()) {
        Ok(()) => 1,
        Err(_) => 1,
    }
}
