ghost use Rattle.std.specs.Prelude.{◌≤◌, length};
ghost use Rattle.std.specs.Result.{result_err};
ghost use Rattle.http_edge.specs.Exchanges.{IsTarget};
ghost use Rattle.proxy_run.specs.Run.{RunsProxy};
ghost use Rattle.proxy_run.specs.State.ProxyPhase.{Between};
ghost use Rattle.proxy_run.specs.Steps.{EndsProxyTurns, IsProxyRunning, proxy_at};
ghost use Rattle.sb_model.specs.declared.time.Moment.{Moment as Read};
ghost use Rattle.update_client.specs.Held.{most_lists};

use crate::ending::finish;
use crate::opening::open_proxy;
use crate::state::ProxyRun;
use crate::taking::is_over;
use crate::turning::take_turn;
use crate::{ProxyPlan, ProxyStop, ProxyWorld};
use client_line::Line;
use sb_outside::{Clock, Door, Keeper, Sink, Wire};
use std::alloc::Global;

/// Takes turns until the run is over.
fn take_turns<O: Sink, K: Keeper, N: Line, M: Line, C: Clock, D: Door>(
    alloc: Global,
    plan: &ProxyPlan,
    run: &mut ProxyRun<D::Wire>,
    world: &mut ProxyWorld<O, K, N, M, C, D>,
)
    requires target { IsTarget plan.now.updates.target }
    requires running { (now : Read) × IsProxyRunning (proxy_at Between now 0) plan.now run.old world.old }
    ensures { EndsProxyTurns plan.now run.old run.new world.old world.new }
{
    for turn in 0..u64::MAX {
        if is_over(plan, run) {
            return;
        }
        take_turn(alloc, plan, run, world);
    }
}

/// Runs a proxy: it loads its store, and then takes turns until as many connections were taken as the plan says, no more come, or an object
/// fails. In each turn it begins a round and a find that may begin, ends those that are answered, and takes a connection. That connection is
/// answered at once by the lists that the proxy holds then and by the answers that it keeps, or it waits for a find. The clock says what is due:
/// a round or a find begins at the first turn at which its moment has come. At the end what is open is ended as else, and who still waits is
/// answered by what is known.
///
/// # Errors
///
/// What ended it before its end: a fault of the output, of the keeper or of the door, or memory that was refused for a round, for the line of a
/// connection or of a find, or for the counts. All connections were given back then too.
pub fn run<O: Sink, K: Keeper, N: Line, M: Line, C: Clock, D: Door>(
    alloc: Global,
    plan: &ProxyPlan,
    world: &mut ProxyWorld<O, K, N, M, C, D>,
) -> Result<(), ProxyStop>
where
    D::Wire: Drop,
    requires few { length plan.now.updates.names ≤ most_lists }
    requires target { IsTarget plan.now.updates.target }
    ensures runs { RunsProxy plan.now (result_err result) world.old world.new }
{
    let mut run = open_proxy(alloc, plan, world)?;
    take_turns(alloc, plan, &mut run, world);
    finish(alloc, plan, &mut run, world);
    match run.held.stop() {
        Some(stop) => Err(stop),
        None => Ok(()),
    }
}
