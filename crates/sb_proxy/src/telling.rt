ghost use Rattle.std.specs.Prelude.{◌≡◌, ◌≢◌, codes};
ghost use Rattle.sb_outside.specs.Outside.{Rose};
ghost use Rattle.sb_words.specs.About.{about_text};
ghost use Rattle.sb_proxy.specs.Runs.{IsProxyTellStatus, IsProxyToldAbout, TellsUsage};

use sb_model::{Bytes, OutOfMemory};
use sb_outside::{Failed, Sink, flush, write_all};
use sb_words::{About, about_text};
use std::alloc::Global;

/// Tells how the program is used, for words that are no command line.
pub(crate) fn tell_usage<O: Sink>(usage: &str, out: &mut O) -> u8
    ensures status { result ≡ 1 }
    ensures usage { TellsUsage usage.now (O.contents out.old) (O.contents out.new) (O.faults out.old) (O.faults out.new) }
{
    match write_all(out, usage.as_bytes()) {
        Ok(()) => 1,
        Err(Failed) => 1,
    }
}

/// Writes a text as it is.
fn print_whole<O: Sink>(mut text: Bytes, out: &mut O) -> u8
    ensures told { IsProxyToldAbout text result (O.contents out.old) (O.contents out.new) }
    ensures failed { result ≡ 3 → Rose (O.faults out.old) (O.faults out.new) }
    ensures kept { result ≢ 3 → O.faults out.new ≡ O.faults out.old }
{
    match flush(out, &mut text) {
        Ok(()) => 0,
        Err(Failed) => 3,
    }
}

/// Writes what is asked about the program, of which this is the usage text. If memory is refused nothing is written.
pub(crate) fn tell_about<O: Sink>(alloc: Global, about: About, usage: &str, out: &mut O) -> u8
    ensures told { result ≢ 8
        → IsProxyToldAbout (about_text about (codes "sbproxy") usage.now) result (O.contents out.old) (O.contents out.new) }
    ensures statuses { IsProxyTellStatus result }
    ensures failed { result ≡ 3 → Rose (O.faults out.old) (O.faults out.new) }
    ensures kept { result ≢ 3 → O.faults out.new ≡ O.faults out.old }
    ensures memory { result ≡ 8 → out.new ≡ out.old }
{
    match about_text(alloc, about, "sbproxy", usage) {
        Ok(text) => print_whole(text, out),
        Err(OutOfMemory) => 8,
    }
}
