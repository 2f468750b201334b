//! Makes journals of lists from URLs, and says what they have.
#![tactic(auto)]

use journal_run::{JournalTargets, journal_targets, run_journal};
use real_objects::{StdSink, StdSource, SystemDice, hold_descriptors};
use sb_mains::{Operator, journal_at, words_of};
use sb_model::OutOfMemory;
use std::process::ExitCode;
use std::random::RandomSource;

/// Whether the system draws random numbers.
fn can_draw(rt: &HostRuntime) -> bool {
    let mut bytes = [0; 8];
    rt.fill_bytes(&mut bytes).is_ok()
}

/// Runs the command that the words are. An epoch that the system does not draw is told before anything is read.
fn run(rt: &HostRuntime, operator: Operator<'_>, words: &[String]) -> Result<u8, OutOfMemory> {
    let alloc = rt.alloc();
    let JournalTargets {
        journal: path,
        draws,
    } = journal_targets(alloc, words)?;
    if draws && !can_draw(rt) {
        operator.say("the system", "", &"draws no random numbers");
        return Ok(2);
    }
    let mut journal = journal_at(rt, &path)?;
    let mut input = StdSource::new(rt.stdin());
    let mut out = StdSink::new(rt.stdout());
    let mut dice = SystemDice::new(rt);
    let status = run_journal(alloc, words, &mut journal, &mut input, &mut out, &mut dice);
    match status {
        2 => {
            operator.tell_of("the journal", &path, journal.why());
            operator.tell("standard input", input.why());
        }
        3 => operator.tell("standard output", out.why()),
        _ => {}
    }
    Ok(status)
}

fn main(rt: HostRuntime) -> ExitCode {
    hold_descriptors(&rt);
    let Ok(words) = words_of(&rt, rt.alloc(), "sbjournal") else {
        return ExitCode::from(8);
    };
    let operator = Operator::new(&rt, "sbjournal");
    ExitCode::from(run(&rt, operator, words.as_slice()).unwrap_or(8))
}
