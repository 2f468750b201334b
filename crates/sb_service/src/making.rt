ghost use Rattle.std.specs.Prelude.{◌≡◌, ◌≢◌, ◌⊎◌, IfOk, IsErrOf, codes};
ghost use Rattle.sb_outside.specs.Outside.{Rose};
ghost use Rattle.generated_load.specs.Exercise.{HasRoom, exercise_line};
ghost use Rattle.sb_words.specs.About.{about_text};
ghost use Rattle.sb_service.specs.Answer.{IsWritten};
ghost use Rattle.sb_service.specs.Made.{generated_text, printed_whole};
ghost use Rattle.sb_service.specs.Stops.{status_of};

use crate::answer::print;
use crate::command::{GenerateLine, Load};
use crate::reply::Reply;
use crate::stop::Stop;
use generated_load::{ExerciseFault, generated_journal, generated_urls};
use sb_model::{Bytes, OutOfMemory};
use sb_outside::Sink;
use sb_words::{About, about_text};
use std::alloc::Global;

/// The URLs of a seed, or its journal.
fn generated_text(alloc: Global, line: GenerateLine) -> Result<Bytes, OutOfMemory>
    ensures { IfOk result (λ text. text ≡ generated_text line) }
{
    if line.urls {
        return generated_urls(alloc, line.load.count, line.load.seed);
    }
    generated_journal(alloc, line.load.count, line.load.seed)
}

/// Writes a text as it is.
fn print_text<O: Sink>(text: Bytes, out: &mut O) -> Stop
    ensures written { IsWritten (printed_whole text) (status_of result) (O.contents out.old) (O.contents out.new) }
    ensures ends { (result ≡ Stop.Done) ⊎ (result ≡ Stop.WriteFault) }
    ensures failed { result ≡ Stop.WriteFault → Rose (O.faults out.old) (O.faults out.new) }
    ensures kept { result ≢ Stop.WriteFault → O.faults out.new ≡ O.faults out.old }
{
    let reply = Reply {
        text,
        stop: Stop::Done,
    };
    print(out, &reply)
}

/// Writes the text of a load. Where memory is refused nothing is written.
pub(crate) fn generate<O: Sink>(alloc: Global, line: GenerateLine, out: &mut O) -> Stop
    ensures written { result ≢ Stop.OutOfMemory
        → IsWritten (printed_whole (generated_text line)) (status_of result) (O.contents out.old) (O.contents out.new) }
    ensures ends { (result ≡ Stop.Done) ⊎ (result ≡ Stop.WriteFault) ⊎ (result ≡ Stop.OutOfMemory) }
    ensures failed { result ≡ Stop.WriteFault → Rose (O.faults out.old) (O.faults out.new) }
    ensures kept { result ≢ Stop.WriteFault → O.faults out.new ≡ O.faults out.old }
    ensures memory { result ≡ Stop.OutOfMemory → out.new ≡ out.old }
{
    match generated_text(alloc, line) {
        Ok(text) => print_text(text, out),
        Err(OutOfMemory) => Stop::OutOfMemory,
    }
}

/// Writes what is asked about the program, of which this is the usage text. Where memory is refused nothing is written.
pub(crate) fn tell<O: Sink>(alloc: Global, about: About, usage: &str, out: &mut O) -> Stop
    ensures written { result ≢ Stop.OutOfMemory
        → IsWritten (printed_whole (about_text about (codes "sblistd") usage.now)) (status_of result) (O.contents out.old) (O.contents out.new) }
    ensures ends { (result ≡ Stop.Done) ⊎ (result ≡ Stop.WriteFault) ⊎ (result ≡ Stop.OutOfMemory) }
    ensures failed { result ≡ Stop.WriteFault → Rose (O.faults out.old) (O.faults out.new) }
    ensures kept { result ≢ Stop.WriteFault → O.faults out.new ≡ O.faults out.old }
    ensures memory { result ≡ Stop.OutOfMemory → out.new ≡ out.old }
{
    match about_text(alloc, about, "sblistd", usage) {
        Ok(text) => print_text(text, out),
        Err(OutOfMemory) => Stop::OutOfMemory,
    }
}

/// Writes the line of an exercise. Where memory is refused, or the journal passes a limit, nothing is written.
pub(crate) fn exercise<O: Sink>(alloc: Global, load: Load, out: &mut O) -> Stop
    ensures written { HasRoom load.count load.seed → result ≢ Stop.OutOfMemory
        → IsWritten (printed_whole (exercise_line load.count load.seed)) (status_of result) (O.contents out.old) (O.contents out.new) }
    ensures ends { (result ≡ Stop.Done) ⊎ (result ≡ Stop.WriteFault) ⊎ (result ≡ Stop.BadJournal) ⊎ (result ≡ Stop.OutOfMemory) }
    ensures failed { result ≡ Stop.WriteFault → Rose (O.faults out.old) (O.faults out.new) }
    ensures kept { result ≢ Stop.WriteFault → O.faults out.new ≡ O.faults out.old }
    ensures memory { result ≡ Stop.OutOfMemory → out.new ≡ out.old }
{
    match generated_load::exercise(alloc, load.count, load.seed) {
        Ok(text) => print_text(text, out),
        Err(ExerciseFault::PastLimits) => Stop::BadJournal,
        Err(ExerciseFault::OutOfMemory) => Stop::OutOfMemory,
    }
}
