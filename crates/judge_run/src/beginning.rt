ghost use Rattle.std.specs.Prelude.{◌≡◌, ◌≢◌, ◌≤◌, length, IfOk, IfErr, OnErr, IsErrOf, Err};
ghost use Rattle.sb_outside.specs.Outside.{Rose};
ghost use Rattle.update_client.specs.Held.{most_lists};
ghost use Rattle.judge_run.specs.Opening.{OpensFinds, BeginsJudging, StopsBeginning};

use crate::JudgeStop;
use client_line::Line;
use input_lines::read_input;
use sb_model::{Bytes, ListName};
use sb_outside::{Keeper, Source};
use std::alloc::Global;
use update_run::{Client, load_lists};
use wait_rules::WaitState;

/// A run before its first URL.
#[derive(Drop)]
pub struct Begun {
    /// Its input.
    pub text: Bytes,
    /// A client with the lists that were kept, before its first round.
    pub client: Client,
    /// When the first find may be sent.
    pub finds: WaitState,
}

// Reads the clock, and draws the word of the updates' first wait and then that of the finds'.
fn open_waits<N: Line>(line: &mut N) -> (WaitState, WaitState)
    ensures opened { OpensFinds result.0 result.1 (N.view line.old).told (N.view line.new).told }
    ensures no_wait { (N.view line.new).told.waits ≡ (N.view line.old).told.waits }
    ensures unasked { (N.view line.new).told.log ≡ (N.view line.old).told.log }
    ensures same { (N.view line.new).objects ≡ (N.view line.old).objects }
{
    let start = line.now();
    let updates = WaitState::first(start, line.word());
    let finds = WaitState::first(start, line.word());
    (updates, finds)
}

/// Begins a run: reads its input whole, loads what the keeper keeps, and then reads the clock once and draws two words, the first of them
/// for updates. After an `Err` the clock was not read and no word was drawn.
///
/// # Errors
///
/// `ReadFault`, `PastLimits` and `KeepFault` as `judge`, and `OutOfMemory`.
pub fn begin<S: Source, K: Keeper, N: Line>(
    alloc: Global,
    names: &[ListName],
    input: &mut S,
    keep: &mut K,
    line: &mut N,
) -> Result<Begun, JudgeStop>
    requires { length names.now ≤ most_lists }

    ensures begun { IfOk result (λ begun. BeginsJudging names.now begun (S.left input.old) (S.left input.new) (K.kept keep.old)
        (N.view line.old).told (N.view line.new).told) }
    ensures stopped { IfErr result (λ stop. StopsBeginning stop (S.left input.old) (S.left input.new)) }
    ensures untouched { OnErr result (N.view line.new ≡ N.view line.old) }
    ensures no_wait { (N.view line.new).told.waits ≡ (N.view line.old).told.waits }

    // No link is asked.
    ensures unasked { (N.view line.new).told.log ≡ (N.view line.old).told.log }
    ensures faults { (N.view line.new).told.faults ≡ (N.view line.old).told.faults }
    ensures same { (N.view line.new).objects ≡ (N.view line.old).objects }
    ensures kept { K.kept keep.new ≡ K.kept keep.old }
    ensures handed { K.handed keep.new ≡ K.handed keep.old }
    ensures input_failed { IsErrOf result JudgeStop.ReadFault → Rose (S.faults input.old) (S.faults input.new) }
    ensures input_kept { result ≢ Err JudgeStop.ReadFault → S.faults input.new ≡ S.faults input.old }
    ensures keeper_failed { IsErrOf result JudgeStop.KeepFault → Rose (K.faults keep.old) (K.faults keep.new) }
    ensures keeper_kept { result ≢ Err JudgeStop.KeepFault → K.faults keep.new ≡ K.faults keep.old }
{
    let text = read_input(alloc, input)?;
    let mut page = Bytes::new(alloc);
    let lists = load_lists(alloc, names, keep, &mut page)?;
    let (waits, finds) = open_waits(line);
    Ok(Begun {
        text,
        client: Client { lists, waits, page },
        finds,
    })
}
