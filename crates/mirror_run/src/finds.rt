ghost use Rattle.std.specs.Prelude.{◌≡◌, ◌≢◌, ◌+◌, ◌||◌, ◌&&◌, not, ℕ, List, [], true, false, length, None, is_some};
ghost use Rattle.http_edge.specs.Exchanges.{IsTarget};
ghost use Rattle.mirror_connections.specs.Open.{HasConnections};
ghost use Rattle.mirror_connections.specs.Over.{DoorSeen, OverConnection};
ghost use Rattle.mirror_run.specs.Allowed.{fate_of_answer};
ghost use Rattle.mirror_run.specs.State.Phase.{Beginning};
ghost use Rattle.mirror_run.specs.Steps.{FindIsDue, GivesFirst, RunGoesOn, IsRunning, MayBegin, MayNotBegin, NoFindIsDue, run_at, RunAt, served_now, WithoutMemory};
ghost use Rattle.mirror_serving.specs.declared.fate.FindFate.TheVariants.{NotSent};

use crate::answering::{answer_its_find, refuse_first, refuse_its_find};
use crate::state::{MirrorRun, has_waited_long};
use crate::{MirrorPlan, MirrorWorld};
use client_line::Line;
use mirror_finds::EndedFind;
use mirror_serving::FindFate;
use sb_model::{Moment, OutOfMemory};
use sb_outside::{Clock, Door, Keeper, Sink, Wire};
use std::alloc::Global;

fn is_due(late: bool, opened: bool) -> bool
    ensures { result ≡ (late || not opened) }
{
    late || !opened
}

fn may_begin(late: bool, opened: bool, may_send: bool) -> bool
    ensures { result ≡ (not late && not opened && may_send) }
{
    !late && !opened && may_send
}

/// Whether something is to be done with the find that waits longest: it waited too long, or no find is open.
pub(crate) fn is_find_due<W: Wire>(run: &MirrorRun<W>, now: Moment) -> bool
    ensures due { result ≡ true → FindIsDue now run.now }
    ensures none { result ≡ false → NoFindIsDue now run.now }
{
    match run.connections.first_heard() {
        Some(heard) => is_due(has_waited_long(now, heard), run.finds.is_open()),
        None => false,
    }
}

/// Whether the find that waits longest may be sent on now.
fn may_begin_find<W: Wire>(run: &MirrorRun<W>, now: Moment) -> bool
    ensures may { result ≡ true → MayBegin now run.now }
    ensures held { result ≡ false → MayNotBegin now run.now }
{
    match run.connections.first_heard() {
        Some(heard) => may_begin(
            has_waited_long(now, heard),
            run.finds.is_open(),
            run.finds.may_send(now),
        ),
        None => false,
    }
}

/// Begins the find that waits longest, with the states of the newest lists. If memory is refused, its connection alone ends so.
fn begin_find<O: Sink, K: Keeper, N: Line, M: Line, C: Clock, D: Door>(
    alloc: Global,
    plan: &MirrorPlan,
    run: &mut MirrorRun<D::Wire>,
    now: Moment,
    world: &mut MirrorWorld<O, K, N, M, C, D>,
)
    requires target { IsTarget plan.now.updates.target }
    requires running { (at : RunAt) × IsRunning at plan.now run.old world.old }
    requires may { MayBegin now run.old }
    requires goes_on { run.old.stop ≡ None }
    ensures goes { (turns : ℕ) → RunGoesOn (run_at Beginning now turns) (run_at Beginning now turns) plan.now run.old run.new world.old world.new }
    ensures fewer { length run.new.connections.waiting + 1 ≡ length run.old.connections.waiting }
    ensures rounds { run.new.rounds ≡ run.old.rounds }
{
    let Ok(states) = run.rounds.lists().states(alloc) else {
        refuse_unsent(alloc, run, world);
        return;
    };
    let Some(asked) = run.connections.begin_first() else {
        unreachable!()
    };
    let target = &plan.updates.target;
    match run
        .finds
        .begin(alloc, asked, states, target, &mut world.finds)
    {
        Ok(()) => {}
        Err(OutOfMemory) => refuse_its_find(alloc, run, world),
    }
}

/// Ends the connection of the find that waits longest, for which memory was refused.
fn refuse_unsent<O: Sink, K: Keeper, N: Line, M: Line, C: Clock, D: Door>(
    alloc: Global,
    run: &mut MirrorRun<D::Wire>,
    world: &mut MirrorWorld<O, K, N, M, C, D>,
)
    requires some { run.old.connections.waiting ≢ [] }
    requires none_begun { run.old.connections.begun ≡ None }
    ensures { (start : DoorSeen) (taken : List (List (List ℕ))) (over : List OverConnection)
        → HasConnections start taken over run.old.connections world.old.door
        → GivesFirst (served_now run.old NotSent) WithoutMemory start taken over run.old run.new world.old world.new }
{
    let Some(_asked) = run.connections.begin_first() else {
        unreachable!()
    };
    refuse_its_find(alloc, run, world);
}

/// Sends the find on that waits longest, or answers that it is not sent.
pub(crate) fn settle_first<O: Sink, K: Keeper, N: Line, M: Line, C: Clock, D: Door>(
    alloc: Global,
    plan: &MirrorPlan,
    run: &mut MirrorRun<D::Wire>,
    now: Moment,
    world: &mut MirrorWorld<O, K, N, M, C, D>,
)
    requires target { IsTarget plan.now.updates.target }
    requires running { (at : RunAt) × IsRunning at plan.now run.old world.old }
    requires due { FindIsDue now run.old }
    requires goes_on { run.old.stop ≡ None }
    ensures goes { (turns : ℕ) → RunGoesOn (run_at Beginning now turns) (run_at Beginning now turns) plan.now run.old run.new world.old world.new }
    ensures fewer { length run.new.connections.waiting + 1 ≡ length run.old.connections.waiting }
    ensures rounds { run.new.rounds ≡ run.old.rounds }
{
    if may_begin_find(run, now) {
        begin_find(alloc, plan, run, now, world);
    } else {
        refuse_first(alloc, run, world);
    }
}

/// What became of a find that was passed on.
fn fate_of(ended: EndedFind) -> FindFate
    ensures { result ≡ fate_of_answer ended.answer }
{
    let EndedFind { asked: _, answer } = ended;
    match answer {
        Ok(message) => FindFate::Brought(message),
        Err(_) => FindFate::Failed,
    }
}

/// Ends the find that is open, and answers its connection.
pub(crate) fn end_find<O: Sink, K: Keeper, N: Line, M: Line, C: Clock, D: Door>(
    alloc: Global,
    plan: &MirrorPlan,
    run: &mut MirrorRun<D::Wire>,
    world: &mut MirrorWorld<O, K, N, M, C, D>,
)
    requires running { (at : RunAt) × IsRunning at plan.now run.old world.old }
    requires opened { is_some run.old.finds.opened ≡ true }
    ensures goes { (at : RunAt) → RunGoesOn at at plan.now run.old run.new world.old world.new }
    ensures closed { run.new.finds.opened ≡ None }
    ensures rounds { run.new.rounds ≡ run.old.rounds }
{
    let target = &plan.updates.target;
    match run
        .finds
        .end(alloc, target, plan.updates.need_digest, &mut world.finds)
    {
        Ok(ended) => answer_its_find(alloc, run, fate_of(ended), world),
        Err(OutOfMemory) => refuse_its_find(alloc, run, world),
    }
}
