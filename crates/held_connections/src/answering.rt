ghost use Rattle.std.specs.Prelude.{◌≡◌, ◌≢◌, ◌⊎◌, ℕ, List, None, Ok, IfSome, IsSome};
ghost use Rattle.http_edge.specs.declared.faults.RequestFault.{RequestFault as Fault};
ghost use Rattle.http_edge.specs.declared.messages.HttpRequest.{HttpRequest as Request};
ghost use Rattle.held_connections.specs.Held.{HoldsConnections};
ghost use Rattle.held_connections.specs.Over.{door_view, right_by, DoorView, ServedConnection};
ghost use Rattle.held_connections.specs.Steps.{AnswersHand};

use crate::held::{HeardConnection, HeldConnections};
use http_serving::{Answers, ConnectionEnd, answer_wire, refuse_wire};
use sb_outside::Door;
use std::alloc::Global;

/// A connection that is over: which it was of those that were taken, counted from 0, and how it ended.
#[derive(Drop)]
pub struct EndedConnection {
    pub number: u32,
    pub end: ConnectionEnd,
}

/// Answers the connection in hand, and gives it back.
pub fn answer_hand<A: Answers, D: Door, P>(
    alloc: Global,
    held: &mut HeldConnections<D::Wire, P>,
    server: &mut A,
    door: &mut D,
) -> EndedConnection
    requires { IsSome held.old.hand }
    ensures over { (start : DoorView) (taken : List (List (List ℕ))) (over : List (ServedConnection A))
        → HoldsConnections (right_by A.routes A.right) start taken over held.old (door_view (D.log door.old) (D.coming door.old))
        → AnswersHand (right_by A.routes A.right) result.number server.old server.new result.end start taken over held.new
        (door_view (D.log door.new) (D.coming door.new)) }
    ensures which { IfSome held.old.hand (λ heard. heard.number ≡ result.number) }
    ensures left { held.new ≡ record held.old { hand = None } }
    ensures stays { A.stays server.old server.new }
    ensures kept { D.faults door.new ≡ D.faults door.old }
    ensures coming { D.coming door.new ≡ D.coming door.old }
{
    let Some(heard) = held.hand.take() else {
        unreachable!()
    };
    let HeardConnection {
        number,
        received,
        wire,
    } = heard;
    let end = answer_wire(alloc, server, door, wire, received);
    EndedConnection { number, end }
}

/// Refuses the connection in hand, since memory was refused for it: a request is answered 503 without a body, and what is none as it is
/// otherwise. It is given back.
pub fn refuse_hand<A: Answers, D: Door, P>(
    alloc: Global,
    held: &mut HeldConnections<D::Wire, P>,
    server: &mut A,
    door: &mut D,
) -> EndedConnection
    requires { IsSome held.old.hand }
    ensures over { (start : DoorView) (taken : List (List (List ℕ))) (over : List (ServedConnection A))
        → HoldsConnections (right_by A.routes A.right) start taken over held.old (door_view (D.log door.old) (D.coming door.old))
        → AnswersHand (right_by A.routes A.right) result.number server.old server.new result.end start taken over held.new
        (door_view (D.log door.new) (D.coming door.new)) }
    ensures which { IfSome held.old.hand (λ heard. heard.number ≡ result.number) }
    ensures how { IfSome held.old.hand (λ heard. (result.end ≡ ConnectionEnd.OutOfMemory) ⊎ ((request : Request) → heard.received ≢ Ok request)) }
    ensures left { held.new ≡ record held.old { hand = None } }
    ensures stays { A.stays server.old server.new }
    ensures kept { D.faults door.new ≡ D.faults door.old }
    ensures coming { D.coming door.new ≡ D.coming door.old }
{
    let Some(heard) = held.hand.take() else {
        unreachable!()
    };
    let HeardConnection {
        number,
        received,
        wire,
    } = heard;
    if let Err(fault) = received {
        let end = answer_wire(alloc, server, door, wire, Err(fault));
        return EndedConnection { number, end };
    }
    refuse_wire(server, door, wire);
    EndedConnection {
        number,
        end: ConnectionEnd::OutOfMemory,
    }
}
