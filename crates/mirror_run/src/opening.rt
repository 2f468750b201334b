ghost use Rattle.std.specs.Prelude.{◌≡◌, ◌≤◌, length, List, ℕ, [], IfErr, IfOk, OnErr};
ghost use Rattle.mirror_run.specs.Run.{BeginsWaiting, DrawsBeginning, DrawsMirrorEpoch, OpensMirror, StopsOpening};
ghost use Rattle.mirror_run.specs.SoFar.{RunStart};
ghost use Rattle.mirror_run.specs.Steps.{BeginsSo};
ghost use Rattle.sb_outside.specs.Outside.{appended};
ghost use Rattle.update_client.specs.Held.{most_lists};
ghost use Rattle.update_run.specs.Opening.{HasLoaded};

use crate::state::{MirrorRun, wait_told};
use crate::stop::stop_of;
use crate::{MirrorPlan, MirrorStop, MirrorWorld};
use client_line::Line;
use mirror_connections::MirrorConnections;
use mirror_finds::MirrorFinds;
use mirror_rounds::MirrorRounds;
use mirror_serving::no_answers_kept;
use sb_model::{Bytes, OutOfMemory};
use sb_outside::{Clock, Door, Failed, Keeper, Sink, flush};
use std::alloc::Global;
use update_client::ClientLists;
use update_run::load_lists;
use wait_rules::WaitState;

/// Draws the epoch: two words, the high half first.
fn draw_epoch<N: Line>(line: &mut N) -> u64
    ensures drawn { DrawsMirrorEpoch result (N.view line.old) (N.view line.new) }
{
    let high = u64::from(line.word());
    let low = u64::from(line.word());
    high * (1 << 32) + low
}

/// When the first session of a line may begin: its clock is read, and a word is drawn.
fn first_wait<N: Line>(line: &mut N) -> WaitState
    ensures waits { BeginsWaiting result (N.view line.old) (N.view line.new) }
{
    let start = line.now();
    WaitState::first(start, line.word())
}

/// Loads the lists that the keeper keeps, and tells of a store that is ignored.
fn open_lists<O: Sink, K: Keeper, N: Line, M: Line, C: Clock, D: Door>(
    alloc: Global,
    plan: &MirrorPlan,
    world: &mut MirrorWorld<O, K, N, M, C, D>,
) -> Result<ClientLists, MirrorStop>
    requires { length plan.now.updates.names ≤ most_lists }
    ensures loaded { IfOk result (λ lists. (text : List ℕ) × HasLoaded plan.now.updates.names world.old.keeper.kept lists [] text
        × (world.new ≡ record world.old { output = appended world.old.output text })) }
    ensures stopped { IfErr result (λ why. StopsOpening why world.old world.new) }
{
    let names = plan.updates.names.as_slice();
    let mut page = Bytes::new(alloc);
    let lists = match load_lists(alloc, names, &mut world.keep, &mut page) {
        Ok(lists) => lists,
        Err(stop) => return Err(stop_of(stop)),
    };
    match flush(&mut world.out, &mut page) {
        Ok(()) => Ok(lists),
        Err(Failed) => Err(MirrorStop::WriteFault),
    }
}

/// Begins a mirror with these lists: its epoch is drawn, and then when its first round and its first find may begin.
fn begin_with<O: Sink, K: Keeper, N: Line, M: Line, C: Clock, D: Door>(
    alloc: Global,
    plan: &MirrorPlan,
    lists: ClientLists,
    world: &mut MirrorWorld<O, K, N, M, C, D>,
) -> Result<MirrorRun<D::Wire>, OutOfMemory>
    ensures begun { IfOk result (λ run. DrawsBeginning plan.now lists run world.old world.new) }
    ensures stopped { OnErr result (StopsOpening MirrorStop.OutOfMemory world.old world.new) }
{
    let epoch = draw_epoch(&mut world.updates);
    let waits = first_wait(&mut world.updates);
    let finds = MirrorFinds::new(first_wait(&mut world.finds));
    let wait = wait_told(plan.wait, false, lists.lists());
    let rounds = MirrorRounds::new(alloc, lists, waits, epoch)?;
    let connections = MirrorConnections::new(alloc)?;
    Ok(MirrorRun {
        rounds,
        finds,
        connections,
        kept: no_answers_kept(alloc),
        wait,
        answered: false,
        no_more: false,
        stop: None,
    })
}

/// Begins a mirror: its store is loaded, its epoch is drawn, and then when its first round and its first find may begin.
pub(crate) fn open_mirror<O: Sink, K: Keeper, N: Line, M: Line, C: Clock, D: Door>(
    alloc: Global,
    plan: &MirrorPlan,
    world: &mut MirrorWorld<O, K, N, M, C, D>,
) -> Result<MirrorRun<D::Wire>, MirrorStop>
    requires { length plan.now.updates.names ≤ most_lists }
    ensures opened { IfOk result (λ run. (start : RunStart) × OpensMirror plan.now start world.old × BeginsSo plan.now start run world.new) }
    ensures stopped { IfErr result (λ why. StopsOpening why world.old world.new) }
{
    let lists = open_lists(alloc, plan, world)?;
    match begin_with(alloc, plan, lists, world) {
        Ok(run) => Ok(run),
        Err(OutOfMemory) => Err(MirrorStop::OutOfMemory),
    }
}
