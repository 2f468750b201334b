ghost use Rattle.std.specs.Prelude.{◌≡◌, [], ℕ, List, None, IfNone, IfSome, IsSome};
ghost use Rattle.http_serving.specs.declared.ends.ConnectionEnd.{ConnectionEnd as End};
ghost use Rattle.mirror_connections.specs.Answered.{AnswersOne, TakesFirstWaiting};
ghost use Rattle.mirror_connections.specs.Open.{HasConnections};
ghost use Rattle.mirror_connections.specs.Over.{door_seen, DoorSeen, OverConnection};

use crate::connections::{HeardFind, MirrorConnections, WaitingFind};
use http_serving::{ConnectionEnd, answer_wire, refuse_wire};
use mirror_serving::MirrorServer;
use sb_outside::Door;
use std::alloc::Global;

/// A connection that is over: which it was of those that were taken, counted from 0, and how it ended.
#[derive(Drop)]
pub struct EndedConnection {
    pub number: u32,
    pub end: ConnectionEnd,
}

/// Answers the connection whose find was begun by the fate that the server has, and gives it back.
pub fn answer_begun<D: Door>(
    alloc: Global,
    connections: &mut MirrorConnections<D::Wire>,
    server: &mut MirrorServer<'_>,
    door: &mut D,
) -> EndedConnection
    requires { IsSome connections.old.begun }
    ensures over { (start : DoorSeen) (taken : List (List (List ℕ))) (over : List OverConnection)
        → HasConnections start taken over connections.old (door_seen (D.log door.old) (D.coming door.old))
        → AnswersOne result.number server.old result.end start taken over connections.new (door_seen (D.log door.new) (D.coming door.new)) }
    ensures which { IfSome connections.old.begun (λ find. find.number ≡ result.number) }
    ensures left { connections.new ≡ record connections.old { begun = None } }
    ensures server { server.new ≡ server.old }
    ensures kept { D.faults door.new ≡ D.faults door.old }
    ensures coming { D.coming door.new ≡ D.coming door.old }
{
    let Some(find) = connections.begun.take() else {
        unreachable!()
    };
    let HeardFind {
        number,
        request,
        wire,
    } = find;
    let end = answer_wire(alloc, server, door, wire, Ok(request));
    EndedConnection { number, end }
}

/// Refuses the connection whose find was begun, since memory was refused for its session: it is answered 503 without a body, and given back.
pub fn refuse_begun<D: Door>(
    connections: &mut MirrorConnections<D::Wire>,
    server: &MirrorServer<'_>,
    door: &mut D,
) -> EndedConnection
    requires { IsSome connections.old.begun }
    ensures over { (start : DoorSeen) (taken : List (List (List ℕ))) (over : List OverConnection)
        → HasConnections start taken over connections.old (door_seen (D.log door.old) (D.coming door.old))
        → AnswersOne result.number server.now result.end start taken over connections.new (door_seen (D.log door.new) (D.coming door.new)) }
    ensures which { IfSome connections.old.begun (λ find. find.number ≡ result.number) }
    ensures how { result.end ≡ ConnectionEnd.OutOfMemory }
    ensures left { connections.new ≡ record connections.old { begun = None } }
    ensures kept { D.faults door.new ≡ D.faults door.old }
    ensures coming { D.coming door.new ≡ D.coming door.old }
{
    let Some(find) = connections.begun.take() else {
        unreachable!()
    };
    let HeardFind {
        number,
        request: _,
        wire,
    } = find;
    refuse_wire(server, door, wire);
    EndedConnection {
        number,
        end: ConnectionEnd::OutOfMemory,
    }
}

/// Answers the connection of the find that waits longest, by the fate that the server has, and gives it back. `None` if none waits.
pub fn answer_first<D: Door>(
    alloc: Global,
    connections: &mut MirrorConnections<D::Wire>,
    server: &mut MirrorServer<'_>,
    door: &mut D,
) -> Option<EndedConnection>
    ensures none { IfNone result (connections.old.waiting ≡ []) }
    ensures over { (start : DoorSeen) (taken : List (List (List ℕ))) (over : List OverConnection)
        → HasConnections start taken over connections.old (door_seen (D.log door.old) (D.coming door.old))
        → IfSome result (λ ended. AnswersOne ended.number server.old ended.end start taken over connections.new (door_seen (D.log door.new) (D.coming door.new))) }
    ensures which { IfSome result (λ ended. TakesFirstWaiting ended.number connections.old connections.new) }
    ensures untouched { IfNone result ((connections.new ≡ connections.old) × (door.new ≡ door.old)) }
    ensures server { server.new ≡ server.old }
    ensures kept { D.faults door.new ≡ D.faults door.old }
    ensures coming { D.coming door.new ≡ D.coming door.old }
{
    let Some(first) = connections.waiting.pop_front() else {
        return None;
    };
    let WaitingFind {
        find,
        asked: _,
        heard: _,
    } = first;
    let HeardFind {
        number,
        request,
        wire,
    } = find;
    let end = answer_wire(alloc, server, door, wire, Ok(request));
    Some(EndedConnection { number, end })
}
