ghost use Rattle.std.specs.Prelude.{◌≡◌, ◌≢◌, ◌⊎◌, ◌++◌, ◌∷◌, ◌≤◌, Bool, ℕ, List, [], length, map, string_bytes, codes, None, Some, Ok};
ghost use Rattle.sb_outside.specs.Outside.{Rose, appended, next_piece};
ghost use Rattle.list_versions.specs.Journal.{Kept, kept_of};
ghost use Rattle.generated_load.specs.Exercise.{HasRoom, exercise_line};
ghost use Rattle.delta_server.specs.declared.answering.Settings.{Settings};
ghost use Rattle.sb_words.specs.About.{about_text};
ghost use Rattle.sb_words.specs.declared.asking.About.{About as Asked};
ghost use Rattle.sb_service.specs.declared.command.GenerateLine.{GenerateLine};
ghost use Rattle.sb_service.specs.declared.command.Load.{Load};
ghost use Rattle.sb_service.specs.declared.command.MessageKind.{MessageKind};
ghost use Rattle.sb_service.specs.Command.{AnswerWords, IsMade, IsNoServerCommand, IsNoService, ServeWords, answer_of, exercise_of, generate_of, serve_of, tell_of};
ghost use Rattle.sb_service.specs.declared.serve.ServePlan.{ServePlan};
ghost use Rattle.sb_service.specs.Made.{generated_text, printed_whole};
ghost use Rattle.sb_service.specs.Printed.{answer_line};
ghost use Rattle.sb_service.specs.Answer.{AreCountedWithDoor, HasNoFault, IsMessageAnswerOf, IsAnswerRun, IsServerStatus, IsWritten, TellsUsage, most_body};
ghost use Rattle.sb_service.specs.Serving.{HasNoBadLine, IsServeRun, serve_view};

use crate::answer::answer;
use crate::command::{Command, GenerateLine, command_of};
use crate::making::{exercise, generate, tell};
use crate::serve::serve;
use crate::stop::{Stop, status_of};
use hash_messages::{find_values_read_one_way, find_values_read_or_have_a_fault};
use list_versions::cuts_make_no_difference;
use lookup_messages::{lookup_values_read_one_way, lookup_values_read_or_have_a_fault};
use sb_model::OutOfMemory;
use sb_outside::{Door, Failed, Sink, Source, write_all};
use std::alloc::Global;
use update_messages::{values_read_one_way, values_read_or_have_a_fault};

/// What is printed where the words are no command line.
pub const USAGE: &str = "usage: sblistd COMMAND\n\n  \
    sblistd answer --journal PATH --kind fetch|find|lookup\n      \
    [--wait S] [--find-wait S] [--cache S] [--negative S]\n      \
    reads a request for updates, for full hashes or to look URLs up, and writes the answer from\n      \
    the lists of a journal\n  \
    sblistd serve --journal PATH --listen HOST:PORT\n      \
    [--connections N] [--peers N] [--answers MIB] [--hold] [--quiet]\n      \
    [--wait S] [--find-wait S] [--cache S] [--negative S]\n      \
    serves the lists of a journal over HTTP; without --wait and --find-wait, fetches are to wait\n      \
    1800 seconds and finds none\n  \
    sblistd generate [--urls] N SEED\n      \
    writes the journal of N changes that a seed makes, or N URLs\n  \
    sblistd exercise N SEED\n      \
    loads such a journal in memory, asks for its list twice, and writes how many entries came\n  \
    sblistd --help | -h | --version\n      \
    writes this text, or the version\n";

/// Tells how the program is used.
fn tell_usage<O: Sink>(out: &mut O) -> u8
    ensures status { result ≡ 1 }
    ensures usage { TellsUsage USAGE.now (O.contents out.old) (O.contents out.new) (O.faults out.old) (O.faults out.new) }
{
    match write_all(out, USAGE.as_bytes()) {
        Ok(()) => status_of(Stop::NoCommand),
        Err(Failed) => status_of(Stop::NoCommand),
    }
}

/// The exit status of a command.
fn run_command<J: Source, S: Source, O: Sink, D: Door>(
    alloc: Global,
    command: Command,
    journal: &mut J,
    input: &mut S,
    out: &mut O,
    door: &mut D,
) -> u8
    ensures statuses { IsServerStatus result }
    ensures some { result ≢ 1 }
    ensures answers { (kind : MessageKind) (settings : Settings) → command ≡ Command.Answer kind settings → result ≢ 8
        → IsAnswerRun settings kind result (J.left journal.old) (J.left journal.new)
        (S.left input.old) (S.left input.new) (O.contents out.old) (O.contents out.new) }
    ensures memory { IsNoService command → result ≡ 8 → out.new ≡ out.old }
    ensures untouched { IsNoService command → door.new ≡ door.old }
    ensures serves { (plan : ServePlan) → command ≡ Command.Serve plan
        → IsServeRun plan result
        (serve_view (J.left journal.old) (O.contents out.old) (D.log door.old) (D.coming door.old))
        (serve_view (J.left journal.new) (O.contents out.new) (D.log door.new) (D.coming door.new)) }
    ensures unread { (plan : ServePlan) → command ≡ Command.Serve plan
        → input.new ≡ input.old }
    ensures journal_failed { (plan : ServePlan) → command ≡ Command.Serve plan
        → result ≡ 2 → Rose (J.faults journal.old) (J.faults journal.new) }
    ensures generates { (urls : Bool) (load : Load) → command ≡ Command.Generate urls load → result ≢ 8
        → IsWritten (printed_whole (generated_text (record { urls = urls; load = load }))) result (O.contents out.old) (O.contents out.new) }
    ensures exercises { (load : Load) → command ≡ Command.Exercise load → HasRoom load.count load.seed → result ≢ 8
        → IsWritten (printed_whole (exercise_line load.count load.seed)) result (O.contents out.old) (O.contents out.new) }
    ensures tells { (about : Asked) → command ≡ Command.Tell about → result ≢ 8
        → IsWritten (printed_whole (about_text about (codes "sblistd") USAGE.now)) result (O.contents out.old) (O.contents out.new) }
    ensures nothing_read { IsMade command → (journal.new ≡ journal.old) × (input.new ≡ input.old) }
    ensures counts { AreCountedWithDoor result (J.faults journal.old) (J.faults journal.new) (S.faults input.old) (S.faults input.new)
        (O.faults out.old) (O.faults out.new) (D.faults door.old) (D.faults door.new) }
{
    match command {
        Command::Answer { kind, settings } => match answer(
            alloc, &settings, kind, journal, input, out,
        ) {
            Ok(stop) => status_of(stop),
            Err(OutOfMemory) => status_of(Stop::OutOfMemory),
        },
        Command::Serve(plan) => status_of(serve(alloc, &plan, journal, out, door)),
        Command::Generate { urls, load } => {
            status_of(generate(alloc, GenerateLine { urls, load }, out))
        }
        Command::Exercise(load) => status_of(exercise(alloc, load, out)),
        Command::Tell(about) => status_of(tell(alloc, about, USAGE, out)),
    }
}

/// Runs one command of the list server, and answers the exit status. The first word is the program's name, `sblistd`.
///
/// `answer` loads the journal, reads the input to its next end, takes it as the body of a fetch request
/// (`threatListUpdates:fetch`), of a find request (`fullHashes:find`) or of a request to look URLs up (`threatMatches:find`),
/// by the kind that the words name, and writes the body of the answer and a newline. The door is not used.
///
/// `serve` loads the journal and takes connections from the door. Before each it reads the journal to its next end; each
/// is answered as `serve_connection` says and given back to the door in every case, and then its line is written:
/// `connection I answered S`, `connection I read-fault` or `connection I write-fault`, with I from 1. The input is not read.
/// With `--quiet` no line is written for a connection.
/// With `--hold` a bad line that is met before a connection does not end the run: `journal CAUSE` is written, this connection
/// and all later ones are served over the last good history, the journal is not looked at again, and the status is 7 in place
/// of 0.
///
/// `generate` writes the journal of a seed, or with `--urls` URLs of it. `exercise` makes such a journal in memory, loads
/// it, answers two requests for its list, and writes how many entries these answers have. Nothing is read, and the door is
/// not used.
///
/// `--help`, `-h` and `--version`, each as the only word after the name, write the usage text or the version, likewise.
///
/// | Status | Comes |
/// |---|---|
/// | 0 | where no other stands; of `serve` after as many connections as were asked for, or where none is to come |
/// | 1 | exactly where the words are no command line: the usage text is written |
/// | 2 | only where the journal's or the input's count of faults rose |
/// | 3 | only where the output's count of faults rose |
/// | 5 | exactly where the body has no reading: `request CAUSE` is written |
/// | 6 | exactly where the input passes 1,048,576 bytes |
/// | 7 | exactly where the journal has a bad line: `journal CAUSE` is written, by `--hold` at once and the status later. Of `exercise`, only where the made journal passes a limit: nothing is written |
/// | 8 | where memory was refused, by a connection too |
/// | 9 | only where the door's count of faults rose |
///
/// The first that comes ends the run. Where a line is not written whole, the status is 3.
pub fn run_server<J: Source, S: Source, O: Sink, D: Door>(
    alloc: Global,
    words: &[String],
    journal: &mut J,
    input: &mut S,
    out: &mut O,
    door: &mut D,
) -> u8
    ensures statuses { IsServerStatus result }

    // Words that are no command line: the usage text alone is written, and nothing is read.
    ensures words { result ≡ 1 → IsNoServerCommand (map string_bytes words.now) }
    ensures other_words { IsNoServerCommand (map string_bytes words.now) → (result ≡ 1) ⊎ (result ≡ 8) }
    ensures unread { IsNoServerCommand (map string_bytes words.now) → (journal.new ≡ journal.old) × (input.new ≡ input.old) }
    ensures usage { result ≡ 1 → TellsUsage USAGE.now (O.contents out.old) (O.contents out.new)
        (O.faults out.old) (O.faults out.new) }

    // `answer`: what became of the journal, the input and the output. Where memory was refused, nothing was written.
    ensures answers { (answer : AnswerWords) → answer_of (map string_bytes words.now) ≡ Some answer → result ≢ 8
        → IsAnswerRun answer.settings answer.kind result (J.left journal.old) (J.left journal.new)
        (S.left input.old) (S.left input.new) (O.contents out.old) (O.contents out.new) }
    ensures memory { serve_of (map string_bytes words.now) ≡ None → result ≡ 8 → out.new ≡ out.old }
    ensures door { serve_of (map string_bytes words.now) ≡ None → door.new ≡ door.old }

    // `serve`: what became of the journal, the connections and the output.
    ensures serves { (line : ServeWords) → serve_of (map string_bytes words.now) ≡ Some line
        → IsServeRun line.plan result
        (serve_view (J.left journal.old) (O.contents out.old) (D.log door.old) (D.coming door.old))
        (serve_view (J.left journal.new) (O.contents out.new) (D.log door.new) (D.coming door.new)) }
    ensures no_input { (line : ServeWords) → serve_of (map string_bytes words.now) ≡ Some line → input.new ≡ input.old }

    // `generate`: the text of the load alone is written, whole or, with status 3, a front of it that lacks something.
    ensures generates { (line : GenerateLine) → generate_of (map string_bytes words.now) ≡ Some line → result ≢ 8
        → IsWritten (printed_whole (generated_text line)) result (O.contents out.old) (O.contents out.new) }
    ensures none_read { (line : GenerateLine) → generate_of (map string_bytes words.now) ≡ Some line
        → (journal.new ≡ journal.old) × (input.new ≡ input.old) }

    // `exercise`: so is its line, where a journal can tell so much.
    ensures exercises { (load : Load) → exercise_of (map string_bytes words.now) ≡ Some load
        → HasRoom load.count load.seed → result ≢ 8
        → IsWritten (printed_whole (exercise_line load.count load.seed)) result (O.contents out.old) (O.contents out.new) }
    ensures not_read { (load : Load) → exercise_of (map string_bytes words.now) ≡ Some load
        → (journal.new ≡ journal.old) × (input.new ≡ input.old) }

    // Words that ask about the program: so is the usage text, or a line of the program's name and its version.
    ensures tells { (about : Asked) → tell_of (map string_bytes words.now) ≡ Some about → result ≢ 8
        → IsWritten (printed_whole (about_text about (codes "sblistd") USAGE.now)) result (O.contents out.old) (O.contents out.new) }
    ensures unasked { (about : Asked) → tell_of (map string_bytes words.now) ≡ Some about
        → (journal.new ≡ journal.old) × (input.new ≡ input.old) }

    // A journal without a bad line is served to the end, where no count rose.
    ensures serves_all { (line : ServeWords) (pieces : List (List ℕ))
        → serve_of (map string_bytes words.now) ≡ Some line
        → J.left journal.old ≡ Some pieces → HasNoBadLine pieces
        → HasNoFault (J.faults journal.old) (J.faults journal.new)
        → HasNoFault (O.faults out.old) (O.faults out.new)
        → HasNoFault (D.faults door.old) (D.faults door.new)
        → (result ≡ 0) ⊎ (result ≡ 8) }

    // A count that rose names its fault.
    ensures counts { AreCountedWithDoor result (J.faults journal.old) (J.faults journal.new) (S.faults input.old) (S.faults input.new)
        (O.faults out.old) (O.faults out.new) (D.faults door.old) (D.faults door.new) }

    // A body that has an answer gets it, where the journal has no fault and no count rose.
    ensures complete { (answer : AnswerWords) (pieces bodies : List (List ℕ)) (kept : Kept) (text : List ℕ)
        → answer_of (map string_bytes words.now) ≡ Some answer
        → J.left journal.old ≡ Some pieces → kept_of (next_piece pieces) ≡ Ok kept
        → S.left input.old ≡ Some bodies → length (next_piece bodies) ≤ most_body
        → IsMessageAnswerOf kept.versions answer.settings answer.kind (next_piece bodies) text
        → HasNoFault (J.faults journal.old) (J.faults journal.new)
        → HasNoFault (S.faults input.old) (S.faults input.new)
        → HasNoFault (O.faults out.old) (O.faults out.new)
        → (result ≡ 0) ⊎ (result ≡ 8) }

    // What is written with status 0 is the answer to the body that the input is, over the history that the journal tells.
    ensures served { (answer : AnswerWords) (pieces bodies : List (List ℕ)) (kept : Kept) (text : List ℕ)
        → answer_of (map string_bytes words.now) ≡ Some answer
        → J.left journal.old ≡ Some pieces → kept_of (next_piece pieces) ≡ Ok kept
        → S.left input.old ≡ Some bodies
        → IsMessageAnswerOf kept.versions answer.settings answer.kind (next_piece bodies) text
        → result ≡ 0
        → O.contents out.new ≡ appended (O.contents out.old) (answer_line text) }
{
    values_read_one_way();
    values_read_or_have_a_fault();
    find_values_read_one_way();
    find_values_read_or_have_a_fault();
    lookup_values_read_one_way();
    lookup_values_read_or_have_a_fault();
    cuts_make_no_difference();
    match command_of(alloc, words) {
        Ok(Some(command)) => run_command(alloc, command, journal, input, out, door),
        Ok(None) => tell_usage(out),
        Err(OutOfMemory) => status_of(Stop::OutOfMemory),
    }
}
