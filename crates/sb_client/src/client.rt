ghost use Rattle.std.specs.Prelude.{◌≡◌, ◌≢◌, ◌⊎◌, ◌<◌, ◌≤◌, ℕ, List, [], length, map, string_bytes, if◌then◌else◌, Option, None, Some, true, false, All};
ghost use Rattle.sb_model.specs.declared.names.ListName.{ListName};
ghost use Rattle.sb_model.specs.History.{History, IsWellFormed};
ghost use Rattle.sb_model.specs.Naming.{Naming, IsNaming};
ghost use Rattle.sb_outside.specs.Outside.{next_piece};
ghost use Rattle.update_client.specs.Held.{most_lists, nothing_held_of};
ghost use Rattle.sb_round.specs.Honest.{IsHonest};
ghost use Rattle.sb_round.specs.Collision.{candidates_of, HasNoCollision};
ghost use Rattle.timed_sessions.specs.Told.{outside};
ghost use Rattle.update_run.specs.Saved.{keeping};
ghost use Rattle.update_run.specs.Run.{seen};
ghost use Rattle.http_edge.specs.Exchanges.{IsTarget};
ghost use Rattle.client_laws.specs.Replicas.{HandsReplicas, TellsReplicas};
ghost use Rattle.update_run.specs.declared.plan.Plan.{Plan as PlanOf};
ghost use Rattle.judge_run.specs.declared.plan.JudgePlan.{JudgePlan};
ghost use Rattle.judge_run.specs.Run.{judging};
ghost use Rattle.sb_client.specs.Command.{replay_of, run_of, judge_of, asks_show, asks_vectors, asked_text_of, MakesItsText, IsNoCommand, IsSound, JudgeWords, RunWords};
ghost use Rattle.input_lines.specs.Lines.{lines_of, IsInputWithinLimits};
ghost use Rattle.update_replay.specs.Readings.{ResponseReading, AreReadings, bodies_of};
ghost use Rattle.sb_client.specs.Ending.{run_status_after, run_status_of, status_after, ending_status_of};
ghost use Rattle.update_replay.specs.Replay.{PrintsReplicas};
ghost use Rattle.sb_client.specs.Honest.{HoldsWhereHonest, KeepsStores};
ghost use Rattle.sb_client.specs.Served.{MeetsAnswers, TellsComplete, MeetsVersions, TellsVersions};
ghost use Rattle.both_ends_laws.specs.Answered.{IsAnsweredIn};
ghost use Rattle.sb_outside.specs.declared.links.Session.{Session};
ghost use Rattle.sb_client.specs.Runs.{AreCountedWithKeeper, HasNoFault, IsCountRun, IsFaultOfStatus, IsJudgeRun, IsReplayRun, IsRunOf, IsShowRun, IsStatus, IsTellRun, IsUpdateRun, IsUsageRun};
ghost use Rattle.sb_client.specs.Usage.{usage_of};
ghost use Rattle.client_laws.specs.Saving.{UpdatesHold};
ghost use Rattle.sb_client.specs.Judged.{ReportsRightly};

use crate::command::{Command, command_of};
use crate::judged::judge_status;
use crate::show::show;
use crate::telling::tell_status;
use crate::usage::tell_usage;
use crate::vectors::vectors;
use both_ends_laws::{answered_runs_are_complete, answered_runs_keep_versions};
use client_laws::{
    judged_urls_are_decided, judgings_save_replicas, runs_hold, runs_of_verdicts_hold,
};
use client_line::{LentLine, Line};
use client_words::asked_targets_are_sound;
use input_lines::{Stop, fronts_are_within};
use judge_run::cases_keep_to_waits;
use sb_model::{ListName, OutOfMemory};
use sb_outside::{Clock, Dice, Gate, Keeper, Link, Sink, Source};
use sb_round::{rounds_are_their_sessions, rounds_keep_to_waits};
use std::alloc::Global;
use std::sync::Wait;
use std::thread::Threads;
use update_replay::{replay, replays_print_replicas};
use update_run::{Plan, RunStop, run};

/// The exit status of an end that is told of, where a refusal has this one.
fn status_with(refused: bool, refusal: u8) -> u8
    ensures { result ≡ (if refused then refusal else 0) }
{
    if refused { refusal } else { 0 }
}

/// The exit status of a stop.
fn status_of_stop(stop: Stop) -> u8
    ensures { result ≡ status_after stop }
{
    match stop {
        Stop::ReadFault => 2,
        Stop::WriteFault => 3,
        Stop::PastLimits => 6,
        Stop::OutOfMemory => 8,
    }
}

/// The exit status of a run's stop.
fn status_of_run_stop(stop: RunStop) -> u8
    ensures { result ≡ run_status_after stop }
{
    match stop {
        RunStop::WriteFault => 3,
        RunStop::KeepFault => 4,
        RunStop::OutOfMemory => 8,
    }
}

/// The exit status of a command, where a refusal has this one.
fn exit_status(ending: Result<bool, Stop>, refusal: u8) -> u8
    ensures { result ≡ ending_status_of refusal ending }
{
    match ending {
        Ok(refused) => status_with(refused, refusal),
        Err(stop) => status_of_stop(stop),
    }
}

/// The exit status of a run.
fn run_exit_status(ending: Result<bool, RunStop>) -> u8
    ensures { result ≡ run_status_of ending }
{
    match ending {
        Ok(refused) => status_with(refused, 5),
        Err(stop) => status_of_run_stop(stop),
    }
}

/// Replays the input to lists with these names, and answers the exit status.
fn replay_status<S: Source, O: Sink>(
    alloc: Global,
    names: &[ListName],
    input: &mut S,
    out: &mut O,
) -> u8
    requires some { names.now ≢ [] }
    requires few { length names.now ≤ most_lists }
    ensures replays { IsReplayRun names.now result (S.left input.old) (S.left input.new) (O.contents out.old) (O.contents out.new) }
    ensures unwritten { (result ≡ 2) ⊎ (result ≡ 6) → out.new ≡ out.old }
    ensures read { IsFaultOfStatus 2 result (S.faults input.old) (S.faults input.new) }
    ensures written { IsFaultOfStatus 3 result (O.faults out.old) (O.faults out.new) }
{
    exit_status(replay(alloc, names, input, out), 5)
}

/// Makes a run, and answers the exit status.
fn run_status<O: Sink, K: Keeper, N: Line, G: Gate>(
    alloc: Global,
    plan: &Plan,
    out: &mut O,
    keep: &mut K,
    line: &mut N,
    gate: &G,
) -> u8
    requires some { 0 < length plan.now.names }
    requires few { length plan.now.names ≤ most_lists }
    requires target { IsTarget plan.now.target }
    ensures runs { IsUpdateRun plan.now result
        (seen (N.view line.old).told (keeping (K.handed keep.old) (K.kept keep.old)) (O.contents out.old))
        (seen (N.view line.new).told (keeping (K.handed keep.new) (K.kept keep.new)) (O.contents out.new)) }
    ensures written { IsFaultOfStatus 3 result (O.faults out.old) (O.faults out.new) }
    ensures saved { IsFaultOfStatus 4 result (K.faults keep.old) (K.faults keep.new) }
    ensures same { (N.view line.new).objects ≡ (N.view line.old).objects }
{
    run_exit_status(run(alloc, plan, out, keep, line, gate))
}

/// Shows the URLs of the input, and answers the exit status.
fn show_status<S: Source, O: Sink>(alloc: Global, input: &mut S, out: &mut O) -> u8
    ensures shows { IsShowRun result (S.left input.old) (S.left input.new) (O.contents out.old) (O.contents out.new) }
    ensures unwritten { (result ≡ 2) ⊎ (result ≡ 6) → out.new ≡ out.old }
    ensures read { IsFaultOfStatus 2 result (S.faults input.old) (S.faults input.new) }
    ensures written { IsFaultOfStatus 3 result (O.faults out.old) (O.faults out.new) }
{
    exit_status(show(alloc, input, out), 21)
}

/// Counts the published examples, and answers the exit status.
fn vectors_status<O: Sink>(alloc: Global, out: &mut O) -> u8
    ensures counts_examples { IsCountRun result (O.contents out.old) (O.contents out.new) }
    ensures memory { result ≡ 8 → out.new ≡ out.old }
    ensures written { IsFaultOfStatus 3 result (O.faults out.old) (O.faults out.new) }
{
    exit_status(vectors(alloc, out), 21)
}

/// Runs a command, and answers the exit status.
fn run_command<R: Threads + Wait + Sync, S: Source, O: Sink, K: Keeper, N: Line, G: Gate + Sync>(
    rt: &R,
    alloc: Global,
    command: Command,
    input: &mut S,
    out: &mut O,
    keep: &mut K,
    line: &mut N,
    gate: &G,
) -> u8
    requires sound { IsSound command }
    ensures does { IsRunOf command result
        (judging (S.left input.old) (seen (N.view line.old).told (keeping (K.handed keep.old) (K.kept keep.old)) (O.contents out.old)))
        (judging (S.left input.new) (seen (N.view line.new).told (keeping (K.handed keep.new) (K.kept keep.new)) (O.contents out.new))) }
    ensures unread { ((names : List ListName) → command ≢ Command.Replay names) → ((plan : JudgePlan) → command ≢ Command.Judge plan)
        → command ≢ Command.Show → input.new ≡ input.old }
    ensures unwritten { (result ≡ 2) ⊎ (result ≡ 6) → out.new ≡ out.old }
    ensures memory { MakesItsText command → result ≡ 8 → out.new ≡ out.old }
    ensures untouched { ((plan : PlanOf) → command ≢ Command.Run plan) → ((plan : JudgePlan) → command ≢ Command.Judge plan)
        → (keep.new ≡ keep.old) × (line.new ≡ line.old) }
    ensures counts { AreCountedWithKeeper result (S.faults input.old) (S.faults input.new) (O.faults out.old) (O.faults out.new)
        (K.faults keep.old) (K.faults keep.new) }
    ensures same { (N.view line.new).objects ≡ (N.view line.old).objects }
{
    match command {
        Command::Replay(names) => replay_status(alloc, names.as_slice(), input, out),
        Command::Run(plan) => run_status(alloc, &plan, out, keep, line, gate),
        Command::Judge(plan) => judge_status(rt, alloc, &plan, input, out, keep, line, gate),
        Command::Show => show_status(alloc, input, out),
        Command::Vectors => vectors_status(alloc, out),
        Command::Tell(text) => tell_status(&text, out),
    }
}

/// What a command has beside the objects that it reads and writes: the runtime that starts its threads, memory, and the gate that it passes
/// between rounds.
#[derive(Drop)]
struct Means<'r, R, G> {
    rt: &'r R,
    alloc: Global,
    gate: &'r G,
}

/// Runs a command over a line of these objects, which are lent to it.
fn run_lent<
    R: Threads + Wait + Sync,
    S: Source,
    O: Sink,
    K: Keeper,
    L: Link,
    C: Clock,
    D: Dice,
    G: Gate + Sync,
>(
    means: Means<'_, R, G>,
    command: Command,
    input: &mut S,
    out: &mut O,
    keep: &mut K,
    link: &mut L,
    clock: &mut C,
    dice: &mut D,
) -> u8
    requires sound { IsSound command }
    ensures does { IsRunOf command result
        (judging (S.left input.old) (seen (outside (L.log link.old) (C.answers clock.old) (C.waits clock.old) (D.given dice.old) (L.faults link.old))
        (keeping (K.handed keep.old) (K.kept keep.old)) (O.contents out.old)))
        (judging (S.left input.new) (seen (outside (L.log link.new) (C.answers clock.new) (C.waits clock.new) (D.given dice.new) (L.faults link.new))
        (keeping (K.handed keep.new) (K.kept keep.new)) (O.contents out.new))) }
    ensures unread { ((names : List ListName) → command ≢ Command.Replay names) → ((plan : JudgePlan) → command ≢ Command.Judge plan)
        → command ≢ Command.Show → input.new ≡ input.old }
    ensures unwritten { (result ≡ 2) ⊎ (result ≡ 6) → out.new ≡ out.old }
    ensures memory { MakesItsText command → result ≡ 8 → out.new ≡ out.old }
    ensures untouched { ((plan : PlanOf) → command ≢ Command.Run plan) → ((plan : JudgePlan) → command ≢ Command.Judge plan)
        → (keep.new ≡ keep.old) × (link.new ≡ link.old) × (clock.new ≡ clock.old) × (dice.new ≡ dice.old) }
    ensures counts { AreCountedWithKeeper result (S.faults input.old) (S.faults input.new) (O.faults out.old) (O.faults out.new)
        (K.faults keep.old) (K.faults keep.new) }
{
    let mut line = LentLine { link, clock, dice };
    let Means { rt, alloc, gate } = means;
    run_command(rt, alloc, command, input, out, keep, &mut line, gate)
}

/// Runs one command of the client programs, and answers the exit status. The first word is the
/// program's name, `sbupdate` or `sbcheck`.
///
/// `replay LIST..` names 1 to 8 lists, each once. It reads the input to its next end, takes each line as
/// a response body, starting from empty lists, and writes what became of each line and the lists that result.
///
/// `run` asks the server at the other end of the link for updates. It loads the lists that the keeper keeps, or begins
/// with empty ones, makes as many rounds as the words say, has the keeper keep the lists after each round that installed
/// one, and writes what became of each round and at the end a line for each list. Where they say no number of rounds, it makes
/// 4,294,967,295. What was printed is written before each round, and then the gate is passed.
///
/// `judge` reads the input likewise, takes each line as a URL, loads the lists that the keeper keeps, and publishes them as publication 0.
/// It checks the URLs on as many threads as the words say, and makes as many rounds of updates beside as they say, each as `run` does: after
/// a round that installed a list the keeper keeps the lists, and then they are published. Each URL is judged by the one publication that its
/// check saw: the server is asked where a hit has to be asked for, once the waits allow it and at most for the patience that the words say.
/// It writes what became of each round, then a line for each URL, with the number of its publication, and a summary. With no updates, which
/// is so where the words say none, the keeper is handed nothing. A find that fails leaves its URL undecided.
///
/// `show` reads the input likewise, takes each line as a URL, and writes its canonical text and its expressions, each
/// after its SHA-256. `vectors` reads nothing, and writes how many of the published examples are met. Neither these nor `replay` use the
/// keeper, the link, the clock or the dice, `run` does not use the input, and `run` and `judge` alone use the gate.
///
/// `--help`, `-h` and `--version`, each as the only word after the name, write the usage text or the version, and use nothing else.
///
/// `rt` is a handle for threads and for waiting. `judge` alone takes it, where it has updates or more than one worker: its threads have ended
/// when it ends, in each case.
///
/// | Status | Comes |
/// |---|---|
/// | 0 | where no other stands |
/// | 1 | only where the words are no command line, and always then unless memory was refused |
/// | 2 | only where the input's count of faults rose |
/// | 3 | only where the output's count of faults rose |
/// | 4 | only where the keeper's count of faults rose |
/// | 5 | exactly where a line of a replay or a response of a round has no reading or an update that is refused, or a round brought no response, and the command came to its end |
/// | 6 | only where the input passes 201,326,592 bytes or 65,536 lines before its end or a fault |
/// | 8 | where memory was refused |
/// | 20 | exactly where a URL is judged unsafe, no round gives 5, and the run came to its end |
/// | 21 | exactly where a URL that is shown has no canonical form, or none is judged unsafe, one is undecided or has no canonical form and no round gives 5, or an example is not met, and the run came to its end |
pub fn run_client<
    R: Threads + Wait + Sync,
    S: Source,
    O: Sink,
    K: Keeper,
    L: Link,
    C: Clock,
    D: Dice,
    G: Gate + Sync,
>(
    rt: &R,
    alloc: Global,
    words: &[String],
    input: &mut S,
    out: &mut O,
    keep: &mut K,
    link: &mut L,
    clock: &mut C,
    dice: &mut D,
    gate: &G,
) -> u8
    ensures statuses { IsStatus result }

    // Words that are no command line: the usage text alone is written, unless memory was refused while the words were read.
    ensures words { result ≡ 1 → IsNoCommand (map string_bytes words.now) }
    ensures no_command { IsNoCommand (map string_bytes words.now)
        → IsUsageRun (usage_of (map string_bytes words.now)) result (O.contents out.old) (O.contents out.new) (O.faults out.old) (O.faults out.new) }

    // Each command: how it ended, which status that has, and what was read, written, kept, sent and answered by then.
    ensures replays { (names : List ListName) → replay_of (map string_bytes words.now) ≡ Some names
        → IsReplayRun names result (S.left input.old) (S.left input.new) (O.contents out.old) (O.contents out.new) }
    ensures runs { (line : RunWords) → run_of (map string_bytes words.now) ≡ Some line → IsUpdateRun line.plan result
        (seen (outside (L.log link.old) (C.answers clock.old) (C.waits clock.old) (D.given dice.old) (L.faults link.old))
        (keeping (K.handed keep.old) (K.kept keep.old)) (O.contents out.old))
        (seen (outside (L.log link.new) (C.answers clock.new) (C.waits clock.new) (D.given dice.new) (L.faults link.new))
        (keeping (K.handed keep.new) (K.kept keep.new)) (O.contents out.new)) }
    ensures judges { (line : JudgeWords) → judge_of (map string_bytes words.now) ≡ Some line → IsJudgeRun line.plan result
        (judging (S.left input.old) (seen (outside (L.log link.old) (C.answers clock.old) (C.waits clock.old) (D.given dice.old) (L.faults link.old))
        (keeping (K.handed keep.old) (K.kept keep.old)) (O.contents out.old)))
        (judging (S.left input.new) (seen (outside (L.log link.new) (C.answers clock.new) (C.waits clock.new) (D.given dice.new) (L.faults link.new))
        (keeping (K.handed keep.new) (K.kept keep.new)) (O.contents out.new))) }
    ensures shows { asks_show (map string_bytes words.now) ≡ true
        → IsShowRun result (S.left input.old) (S.left input.new) (O.contents out.old) (O.contents out.new) }
    ensures counts_examples { asks_vectors (map string_bytes words.now) ≡ true
        → IsCountRun result (O.contents out.old) (O.contents out.new) }

    // Words that ask about the program: the usage text, or a line of the program's name and its version.
    ensures about { (text : List ℕ) → asked_text_of (map string_bytes words.now) ≡ Some text
        → IsTellRun text result (O.contents out.old) (O.contents out.new) }

    // What a command does not use is as it was: the input but for `replay`, `judge` and `show`, and what is outside but for `run` and
    // `judge`. So is the output where the input failed or passes a limit, and where memory was refused before anything was to be written.
    ensures unread { replay_of (map string_bytes words.now) ≡ None → judge_of (map string_bytes words.now) ≡ None
        → asks_show (map string_bytes words.now) ≡ false → input.new ≡ input.old }
    ensures untouched { run_of (map string_bytes words.now) ≡ None → judge_of (map string_bytes words.now) ≡ None
        → (keep.new ≡ keep.old) × (link.new ≡ link.old) × (clock.new ≡ clock.old) × (dice.new ≡ dice.old) }
    ensures unwritten { (result ≡ 2) ⊎ (result ≡ 6) → out.new ≡ out.old }
    ensures memory { replay_of (map string_bytes words.now) ≡ None → run_of (map string_bytes words.now) ≡ None
        → judge_of (map string_bytes words.now) ≡ None → asks_show (map string_bytes words.now) ≡ false → result ≡ 8 → out.new ≡ out.old }

    // A count of faults that rose has its status, and a status of a fault has a count that rose.
    ensures counts { AreCountedWithKeeper result (S.faults input.old) (S.faults input.new) (O.faults out.old) (O.faults out.new)
        (K.faults keep.old) (K.faults keep.new) }

    // Where no count rose, a command comes to its end, unless its input passes a limit or memory was refused.
    ensures complete { (names : List ListName) (pieces : List (List ℕ)) → replay_of (map string_bytes words.now) ≡ Some names
        → S.left input.old ≡ Some pieces → IsInputWithinLimits (next_piece pieces)
        → HasNoFault (S.faults input.old) (S.faults input.new) → HasNoFault (O.faults out.old) (O.faults out.new)
        → (result ≡ 0) ⊎ (result ≡ 5) ⊎ (result ≡ 8) }
    ensures complete_show { (pieces : List (List ℕ)) → asks_show (map string_bytes words.now) ≡ true
        → S.left input.old ≡ Some pieces → IsInputWithinLimits (next_piece pieces)
        → HasNoFault (S.faults input.old) (S.faults input.new) → HasNoFault (O.faults out.old) (O.faults out.new)
        → (result ≡ 0) ⊎ (result ≡ 21) ⊎ (result ≡ 8) }
    ensures complete_run { (line : RunWords) → run_of (map string_bytes words.now) ≡ Some line
        → HasNoFault (O.faults out.old) (O.faults out.new) → HasNoFault (K.faults keep.old) (K.faults keep.new)
        → (result ≡ 0) ⊎ (result ≡ 5) ⊎ (result ≡ 8) }

    ensures complete_judge { (line : JudgeWords) (pieces : List (List ℕ)) → judge_of (map string_bytes words.now) ≡ Some line
        → S.left input.old ≡ Some pieces → IsInputWithinLimits (next_piece pieces)
        → HasNoFault (S.faults input.old) (S.faults input.new) → HasNoFault (O.faults out.old) (O.faults out.new)
        → HasNoFault (K.faults keep.old) (K.faults keep.new)
        → (result ≡ 0) ⊎ (result ≡ 5) ⊎ (result ≡ 20) ⊎ (result ≡ 21) ⊎ (result ≡ 8) }

    // The headline: where the bodies that the source tells are honest and no digest collides, each list that a
    // replay prints is the server's at the version that its token names, or is empty without a token.
    ensures replica { (names : List ListName) (pieces : List (List ℕ)) (readings : List ResponseReading) (history : History) (token_at : Naming)
        → replay_of (map string_bytes words.now) ≡ Some names
        → S.left input.old ≡ Some pieces
        → AreReadings (lines_of (next_piece pieces)) readings
        → IsWellFormed history
        → IsNaming history token_at
        → IsHonest history token_at (nothing_held_of names) (bodies_of readings)
        → HasNoCollision history (candidates_of (nothing_held_of names) (bodies_of readings))
        → (result ≡ 0) ⊎ (result ≡ 5)
        → PrintsReplicas history token_at names readings (O.contents out.old) (O.contents out.new) }

    // The headline of a run: where it begins with replicas of the server's lists, and those of the log's bodies that it took are honest
    // and no digest collides, then, wherever the run ends, each text that the keeper is handed is the store of replicas, and what it
    // keeps is what it kept, or no store, or reads as replicas; and at the end the lists are printed, as replicas.
    ensures saves { (line : RunWords) → run_of (map string_bytes words.now) ≡ Some line → HoldsWhereHonest line.plan result
        (seen (outside (L.log link.old) (C.answers clock.old) (C.waits clock.old) (D.given dice.old) (L.faults link.old))
        (keeping (K.handed keep.old) (K.kept keep.old)) (O.contents out.old))
        (seen (outside (L.log link.new) (C.answers clock.new) (C.waits clock.new) (D.given dice.new) (L.faults link.new))
        (keeping (K.handed keep.new) (K.kept keep.new)) (O.contents out.new)) HandsReplicas }
    ensures keeps { (line : RunWords) → run_of (map string_bytes words.now) ≡ Some line → HoldsWhereHonest line.plan result
        (seen (outside (L.log link.old) (C.answers clock.old) (C.waits clock.old) (D.given dice.old) (L.faults link.old))
        (keeping (K.handed keep.old) (K.kept keep.old)) (O.contents out.old))
        (seen (outside (L.log link.new) (C.answers clock.new) (C.waits clock.new) (D.given dice.new) (L.faults link.new))
        (keeping (K.handed keep.new) (K.kept keep.new)) (O.contents out.new)) KeepsStores }
    ensures tells { (line : RunWords) → run_of (map string_bytes words.now) ≡ Some line → (result ≡ 0) ⊎ (result ≡ 5)
        → HoldsWhereHonest line.plan result
        (seen (outside (L.log link.old) (C.answers clock.old) (C.waits clock.old) (D.given dice.old) (L.faults link.old))
        (keeping (K.handed keep.old) (K.kept keep.old)) (O.contents out.old))
        (seen (outside (L.log link.new) (C.answers clock.new) (C.waits clock.new) (D.given dice.new) (L.faults link.new))
        (keeping (K.handed keep.new) (K.kept keep.new)) (O.contents out.new)) TellsReplicas }

    // Completeness of a run, over its words, its store and its log: where it asks a server of this history from replicas, and each session was
    // answered by the server or lost, each round that was answered prints `ok`, and of each list that the server declares that its update is
    // installed; and where none was lost, no refusal is told. The server need not declare each list of the words.
    ensures installs { (line : RunWords) (history : History) (token_at : Naming) (kept : Option (List ℕ)) (sessions : List Session)
        → run_of (map string_bytes words.now) ≡ Some line → (result ≡ 0) ⊎ (result ≡ 5) → MeetsAnswers history token_at line.plan kept sessions
        (seen (outside (L.log link.old) (C.answers clock.old) (C.waits clock.old) (D.given dice.old) (L.faults link.old))
        (keeping (K.handed keep.old) (K.kept keep.old)) (O.contents out.old))
        (seen (outside (L.log link.new) (C.answers clock.new) (C.waits clock.new) (D.given dice.new) (L.faults link.new))
        (keeping (K.handed keep.new) (K.kept keep.new)) (O.contents out.new))
        → TellsComplete history token_at line.plan kept sessions
        (seen (outside (L.log link.old) (C.answers clock.old) (C.waits clock.old) (D.given dice.old) (L.faults link.old))
        (keeping (K.handed keep.old) (K.kept keep.old)) (O.contents out.old))
        (seen (outside (L.log link.new) (C.answers clock.new) (C.waits clock.new) (D.given dice.new) (L.faults link.new))
        (keeping (K.handed keep.new) (K.kept keep.new)) (O.contents out.new)) }
    ensures answered { (line : RunWords) (history : History) (token_at : Naming) (kept : Option (List ℕ)) (sessions : List Session)
        → run_of (map string_bytes words.now) ≡ Some line → MeetsAnswers history token_at line.plan kept sessions
        (seen (outside (L.log link.old) (C.answers clock.old) (C.waits clock.old) (D.given dice.old) (L.faults link.old))
        (keeping (K.handed keep.old) (K.kept keep.old)) (O.contents out.old))
        (seen (outside (L.log link.new) (C.answers clock.new) (C.waits clock.new) (D.given dice.new) (L.faults link.new))
        (keeping (K.handed keep.new) (K.kept keep.new)) (O.contents out.new))
        → All (IsAnsweredIn history token_at line.plan.target) sessions → result ≢ 5 }

    // Versions do not go back: where the versions at which the server answered do not fall and are not below this one, each list that
    // the run began with at a version up to this one is printed at that version or at a later one.
    ensures versions { (line : RunWords) (history : History) (token_at : Naming) (least : ℕ) (kept : Option (List ℕ)) (sessions : List Session)
        → run_of (map string_bytes words.now) ≡ Some line → (result ≡ 0) ⊎ (result ≡ 5) → MeetsVersions history token_at least line.plan kept sessions
        (seen (outside (L.log link.old) (C.answers clock.old) (C.waits clock.old) (D.given dice.old) (L.faults link.old))
        (keeping (K.handed keep.old) (K.kept keep.old)) (O.contents out.old))
        (seen (outside (L.log link.new) (C.answers clock.new) (C.waits clock.new) (D.given dice.new) (L.faults link.new))
        (keeping (K.handed keep.new) (K.kept keep.new)) (O.contents out.new))
        → TellsVersions history token_at least line.plan kept sessions
        (seen (outside (L.log link.old) (C.answers clock.old) (C.waits clock.old) (D.given dice.old) (L.faults link.old))
        (keeping (K.handed keep.old) (K.kept keep.old)) (O.contents out.old))
        (seen (outside (L.log link.new) (C.answers clock.new) (C.waits clock.new) (D.given dice.new) (L.faults link.new))
        (keeping (K.handed keep.new) (K.kept keep.new)) (O.contents out.new)) }

    // The headline of a judging's updates: wherever the run ends, where it began with replicas of the server's lists, and the updates that it
    // made are honest and no digest collides, each text that the keeper is handed is the store of replicas, and what it keeps is what it
    // kept, or no store, or reads as replicas.
    ensures judge_saves { (line : JudgeWords) → judge_of (map string_bytes words.now) ≡ Some line → UpdatesHold line.plan
        (judging (S.left input.old) (seen (outside (L.log link.old) (C.answers clock.old) (C.waits clock.old) (D.given dice.old) (L.faults link.old))
        (keeping (K.handed keep.old) (K.kept keep.old)) (O.contents out.old)))
        (judging (S.left input.new) (seen (outside (L.log link.new) (C.answers clock.new) (C.waits clock.new) (D.given dice.new) (L.faults link.new))
        (keeping (K.handed keep.new) (K.kept keep.new)) (O.contents out.new))) }

    // The headline of a judging: where it came to its end, its updates and its finds kept to their waits, and each URL is decided where
    // nothing had to be asked or its find was allowed, passed and read. Where it began with replicas of the server's lists, and the updates
    // that it made are honest and no digest collides, the lists of each publication are replicas; then each verdict whose deciding answers
    // were faithful to the publication that it names is borne out, and equals a look-up in the full lists where no hit was left open. These
    // verdicts are what was printed. Nothing is asked of answers that did not decide the verdict that is spoken of.
    ensures verdicts { (line : JudgeWords) (history : History) (token_at : Naming) → judge_of (map string_bytes words.now) ≡ Some line
        → IsWellFormed history → (result ≡ 0) ⊎ (result ≡ 5) ⊎ (result ≡ 20) ⊎ (result ≡ 21) → ReportsRightly history token_at line.plan result
        (judging (S.left input.old) (seen (outside (L.log link.old) (C.answers clock.old) (C.waits clock.old) (D.given dice.old) (L.faults link.old))
        (keeping (K.handed keep.old) (K.kept keep.old)) (O.contents out.old)))
        (judging (S.left input.new) (seen (outside (L.log link.new) (C.answers clock.new) (C.waits clock.new) (D.given dice.new) (L.faults link.new))
        (keeping (K.handed keep.new) (K.kept keep.new)) (O.contents out.new))) }
{
    fronts_are_within();
    replays_print_replicas();
    runs_hold();
    rounds_are_their_sessions();
    answered_runs_are_complete();
    answered_runs_keep_versions();
    runs_of_verdicts_hold();
    judgings_save_replicas();
    cases_keep_to_waits();
    rounds_keep_to_waits();
    judged_urls_are_decided();
    asked_targets_are_sound();
    match command_of(alloc, words) {
        Ok(Some(command)) => {
            let means = Means { rt, alloc, gate };
            run_lent(means, command, input, out, keep, link, clock, dice)
        }
        Ok(None) => tell_usage(words, out),
        Err(OutOfMemory) => 8,
    }
}
