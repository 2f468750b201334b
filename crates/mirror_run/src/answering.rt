ghost use Rattle.std.specs.Prelude.{◌≡◌, ◌≢◌, ◌+◌, ℕ, List, [], length, IsSome};
ghost use Rattle.mirror_connections.specs.Open.{HasConnections};
ghost use Rattle.mirror_connections.specs.Over.{DoorSeen, OverConnection};
ghost use Rattle.mirror_run.specs.Events.{LineEnd};
ghost use Rattle.mirror_run.specs.Steps.{Anyhow, GivesBegun, GivesFirst, PrintsLine, served_now, WithoutMemory};
ghost use Rattle.mirror_serving.specs.declared.fate.FindFate.{FindFate as Fate};
ghost use Rattle.mirror_serving.specs.declared.fate.FindFate.TheVariants.{NotSent};

use crate::state::MirrorRun;
use crate::{MirrorStop, MirrorWorld};
use client_line::Line;
use http_edge::ResponseFault;
use http_serving::print_connection;
use mirror_connections::{EndedConnection, answer_begun, answer_first, refuse_begun};
use mirror_serving::{FindFate, MirrorServer, no_answers_kept};
use sb_outside::{Clock, Door, Keeper, Sink, Wire};
use std::alloc::Global;
use std::mem;

/// Prints the line of a connection that is over. If it cannot be written, the run ends.
pub(crate) fn tell_over<W: Wire, O: Sink>(
    alloc: Global,
    run: &mut MirrorRun<W>,
    ended: &EndedConnection,
    out: &mut O,
)
    ensures prints { (one : OverConnection) → one.number ≡ ended.now.number → one.how ≡ ended.now.end
        → (told : LineEnd) × PrintsLine one told run.old.stop run.new.stop (O.contents out.old) (O.contents out.new) (O.faults out.old) (O.faults out.new) }
    ensures others { run.new ≡ record run.old { stop = run.new.stop } }
{
    let number = ended.number.saturating_add(1);
    match print_connection(alloc, number, &ended.end, out) {
        Ok(()) => {}
        Err(ResponseFault::WriteFault) => run.note(MirrorStop::WriteFault),
        Err(ResponseFault::OutOfMemory) => run.note(MirrorStop::OutOfMemory),
    }
}

/// Answers the connection whose find was begun by the fate of its find, and tells it.
pub(crate) fn answer_its_find<O: Sink, K: Keeper, N: Line, M: Line, C: Clock, D: Door>(
    alloc: Global,
    run: &mut MirrorRun<D::Wire>,
    fate: FindFate,
    world: &mut MirrorWorld<O, K, N, M, C, D>,
)
    requires { IsSome run.old.connections.begun }
    ensures { (start : DoorSeen) (taken : List (List (List ℕ))) (over : List OverConnection)
        → HasConnections start taken over run.old.connections world.old.door
        → GivesBegun (served_now run.old fate) Anyhow start taken over run.old run.new world.old world.new }
{
    let kept = mem::replace(&mut run.kept, no_answers_kept(alloc));
    let mut server = MirrorServer::new(run.rounds.mirror(), run.wait, fate, kept);
    let ended = answer_begun(alloc, &mut run.connections, &mut server, &mut world.door);
    run.kept = server.into_kept();
    tell_over(alloc, run, &ended, &mut world.out);
}

/// Answers the connection whose find was begun, and for which memory was refused, and tells it.
pub(crate) fn refuse_its_find<O: Sink, K: Keeper, N: Line, M: Line, C: Clock, D: Door>(
    alloc: Global,
    run: &mut MirrorRun<D::Wire>,
    world: &mut MirrorWorld<O, K, N, M, C, D>,
)
    requires { IsSome run.old.connections.begun }
    ensures { (start : DoorSeen) (taken : List (List (List ℕ))) (over : List OverConnection)
        → HasConnections start taken over run.old.connections world.old.door
        → GivesBegun (served_now run.old NotSent) WithoutMemory start taken over run.old run.new world.old world.new }
{
    let kept = mem::replace(&mut run.kept, no_answers_kept(alloc));
    let server = MirrorServer::new(run.rounds.mirror(), run.wait, FindFate::NotSent, kept);
    let ended = refuse_begun(&mut run.connections, &server, &mut world.door);
    run.kept = server.into_kept();
    tell_over(alloc, run, &ended, &mut world.out);
}

/// Answers the connection of the find that waits longest, which is not sent on, and tells it.
pub(crate) fn refuse_first<O: Sink, K: Keeper, N: Line, M: Line, C: Clock, D: Door>(
    alloc: Global,
    run: &mut MirrorRun<D::Wire>,
    world: &mut MirrorWorld<O, K, N, M, C, D>,
)
    requires { run.old.connections.waiting ≢ [] }
    ensures gives { (start : DoorSeen) (taken : List (List (List ℕ))) (over : List OverConnection)
        → HasConnections start taken over run.old.connections world.old.door
        → GivesFirst (served_now run.old NotSent) Anyhow start taken over run.old run.new world.old world.new }
    ensures fewer { length run.new.connections.waiting + 1 ≡ length run.old.connections.waiting }
    ensures rounds { run.new.rounds ≡ run.old.rounds }
    ensures finds { run.new.finds ≡ run.old.finds }
{
    let kept = mem::replace(&mut run.kept, no_answers_kept(alloc));
    let mut server = MirrorServer::new(run.rounds.mirror(), run.wait, FindFate::NotSent, kept);
    let ended = answer_first(alloc, &mut run.connections, &mut server, &mut world.door);
    run.kept = server.into_kept();
    let Some(ended) = ended else { unreachable!() };
    tell_over(alloc, run, &ended, &mut world.out);
}
