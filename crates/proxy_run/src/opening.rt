ghost use Rattle.std.specs.Prelude.{◌≡◌, ◌≤◌, length, List, ℕ, [], IfErr, IfOk, OnErr};
ghost use Rattle.proxy_run.specs.Run.{DrawsFirstWait, DrawsProxyBeginning, OpensProxy, StopsProxyOpening};
ghost use Rattle.proxy_run.specs.SoFar.{ProxyStart};
ghost use Rattle.proxy_run.specs.Steps.{ProxyBeginsSo};
ghost use Rattle.proxy_run.specs.declared.plan.ProxyPlan.{ProxyPlan as Plan};
ghost use Rattle.sb_outside.specs.Outside.{appended};
ghost use Rattle.update_client.specs.Held.{most_lists};
ghost use Rattle.update_run.specs.Opening.{HasLoaded};

use crate::held::HeldLooks;
use crate::rounds::stop_of;
use crate::state::ProxyRun;
use crate::{ProxyPlan, ProxyStop, ProxyWorld};
use client_line::Line;
use client_rounds::ClientRounds;
use sb_model::{Bytes, OutOfMemory};
use sb_outside::{Clock, Door, Failed, Keeper, Sink, flush};
use std::alloc::Global;
use update_client::ClientLists;
use update_run::load_lists;
use url_checker::sizes_on;
use wait_rules::WaitState;

/// When the first session of a line may begin: its clock is read, and a word is drawn.
fn first_wait<N: Line>(line: &mut N) -> WaitState
    ensures waits { DrawsFirstWait result (N.view line.old) (N.view line.new) }
{
    let start = line.now();
    WaitState::first(start, line.word())
}

/// Loads the lists that the keeper keeps, and tells of a store that is ignored.
fn open_lists<O: Sink, K: Keeper, N: Line, M: Line, C: Clock, D: Door>(
    alloc: Global,
    plan: &ProxyPlan,
    world: &mut ProxyWorld<O, K, N, M, C, D>,
) -> Result<ClientLists, ProxyStop>
    requires { length plan.now.updates.names ≤ most_lists }
    ensures loaded { IfOk result (λ lists. (text : List ℕ) × HasLoaded plan.now.updates.names world.old.keeper.kept lists [] text
        × (world.new ≡ record world.old { looks = record world.old.looks { output = appended world.old.looks.output text } })) }
    ensures stopped { IfErr result (λ why. StopsProxyOpening why world.old world.new) }
{
    let names = plan.updates.names.as_slice();
    let mut page = Bytes::new(alloc);
    let lists = match load_lists(alloc, names, &mut world.keep, &mut page) {
        Ok(lists) => lists,
        Err(stop) => return Err(stop_of(stop)),
    };
    match flush(&mut world.looks.out, &mut page) {
        Ok(()) => Ok(lists),
        Err(Failed) => Err(ProxyStop::WriteFault),
    }
}

/// Begins a proxy with these lists: when its first round and its first find may begin is drawn.
fn begin_with<O: Sink, K: Keeper, N: Line, M: Line, C: Clock, D: Door>(
    alloc: Global,
    lists: ClientLists,
    world: &mut ProxyWorld<O, K, N, M, C, D>,
) -> Result<ProxyRun<D::Wire>, OutOfMemory>
    ensures begun { IfOk result (λ run. (plan : Plan) → DrawsProxyBeginning plan lists run world.old world.new) }
    ensures stopped { OnErr result (StopsProxyOpening ProxyStop.OutOfMemory world.old world.new) }
{
    let waits = first_wait(&mut world.updates);
    let finds = first_wait(&mut world.looks.finds);
    let held = HeldLooks::new(alloc, finds)?;
    let sizes = sizes_on(&lists);
    Ok(ProxyRun {
        rounds: ClientRounds::new(lists, waits),
        sizes,
        held,
        no_more: false,
    })
}

/// Begins a proxy: its store is loaded, and when its first round and its first find may begin is drawn.
pub(crate) fn open_proxy<O: Sink, K: Keeper, N: Line, M: Line, C: Clock, D: Door>(
    alloc: Global,
    plan: &ProxyPlan,
    world: &mut ProxyWorld<O, K, N, M, C, D>,
) -> Result<ProxyRun<D::Wire>, ProxyStop>
    requires { length plan.now.updates.names ≤ most_lists }
    ensures opened { IfOk result (λ run. (start : ProxyStart) × OpensProxy plan.now start world.old × ProxyBeginsSo plan.now start run world.new) }
    ensures stopped { IfErr result (λ why. StopsProxyOpening why world.old world.new) }
{
    let lists = open_lists(alloc, plan, world)?;
    match begin_with(alloc, lists, world) {
        Ok(run) => Ok(run),
        Err(OutOfMemory) => Err(ProxyStop::OutOfMemory),
    }
}
