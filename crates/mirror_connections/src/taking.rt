ghost use Rattle.std.specs.Prelude.{◌≡◌, ◌⊎◌, ◌+◌, ◌-◌, ◌<◌, ◌^◌, ◌++◌, ◌∷◌, [], ℕ, List, length, IfNone, IfSome};
ghost use Rattle.hash_messages.specs.Messages.{AskedHashes};
ghost use Rattle.http_serving.specs.Hearing.{IsHeard};
ghost use Rattle.http_serving.specs.Returning.{IsReturned};
ghost use Rattle.http_serving.specs.Serving.{IsServed};
ghost use Rattle.mirror_serving.specs.HeardFind.{IsHeardFind};
ghost use Rattle.mirror_serving.specs.Response.{IsMirrorResponseTo};
ghost use Rattle.mirror_connections.specs.Answered.{AnswersOne, GivesWire, IsAnsweredAtOnce, PutsOff};
ghost use Rattle.mirror_connections.specs.Open.{most_waiting, wire_seen, HasConnections};
ghost use Rattle.mirror_connections.specs.Over.{door_seen, DoorSeen, OverConnection};

use crate::connections::MirrorConnections;
use http_edge::{HttpRequest, RequestFault};
use http_serving::{ConnectionEnd, answer_wire, hear_request, refuse_wire};
use mirror_serving::{MirrorServer, asked_find};
use sb_model::Moment;
use sb_outside::Door;
use std::alloc::Global;

/// Ends a connection that was heard and for which memory was refused, and gives it back.
fn refuse_heard<D: Door>(
    alloc: Global,
    server: &mut MirrorServer<'_>,
    door: &mut D,
    wire: D::Wire,
    received: Result<HttpRequest, RequestFault>,
) -> ConnectionEnd
    ensures served { (pieces : List (List ℕ))
        → IsHeard received pieces (D.Wire.start wire) (D.Wire.left wire) (D.Wire.contents wire) (D.Wire.Source.faults wire) (D.Wire.Sink.faults wire)
        → IsReturned (IsServed (IsMirrorResponseTo server.old.places server.old.wait server.old.fate) result pieces) (D.Wire.number wire)
        (D.log door.old) (D.log door.new) }
    ensures because { (result ≡ ConnectionEnd.OutOfMemory) ⊎ ((message : AskedHashes) → ¬ IsHeardFind received message) }
    ensures server { server.new ≡ server.old }
    ensures kept { D.faults door.new ≡ D.faults door.old }
    ensures coming { D.coming door.new ≡ D.coming door.old }
{
    let Err(fault) = received else {
        refuse_wire(server, door, wire);
        return ConnectionEnd::OutOfMemory;
    };
    answer_wire(alloc, server, door, wire, Err(fault))
}

/// Takes a connection that a door gave: hears it, and answers it at once and gives it back, or puts it off behind those that wait. It is put
/// off if it asks a find and fewer than 256 wait. If as many wait, the server's fate answers it. If memory is refused, the connection alone
/// ends so.
pub fn take_connection<D: Door>(
    alloc: Global,
    connections: &mut MirrorConnections<D::Wire>,
    now: Moment,
    server: &mut MirrorServer<'_>,
    door: &mut D,
    wire: D::Wire,
) -> Option<ConnectionEnd>
    requires { connections.old.taken < 2 ^ 32 - 1 }
    ensures over { (start before : DoorSeen) (taken : List (List (List ℕ))) (pieces : List (List ℕ)) (over : List OverConnection)
        → HasConnections start taken over connections.old before
        → GivesWire pieces before (door_seen (D.log door.old) (D.coming door.old))
        (wire_seen (D.Wire.number wire) (D.Wire.start wire) (D.Wire.left wire) (D.Wire.contents wire) (D.Wire.Source.faults wire) (D.Wire.Sink.faults wire))
        → IfSome result (λ how. AnswersOne (length taken) server.old how start (taken ++ pieces ∷ []) over connections.new (door_seen (D.log door.new) (D.coming door.new))) }
    ensures at_once { IfSome result (λ how. IsAnsweredAtOnce connections.old.waiting how (D.Wire.left wire)) }
    ensures put_off { (start before : DoorSeen) (taken : List (List (List ℕ))) (pieces : List (List ℕ)) (over : List OverConnection)
        → HasConnections start taken over connections.old before
        → GivesWire pieces before (door_seen (D.log door.old) (D.coming door.old))
        (wire_seen (D.Wire.number wire) (D.Wire.start wire) (D.Wire.left wire) (D.Wire.contents wire) (D.Wire.Source.faults wire) (D.Wire.Sink.faults wire))
        → IfNone result (PutsOff now start (taken ++ pieces ∷ []) over connections.old connections.new (door_seen (D.log door.new) (D.coming door.new))) }
    ensures room { IfNone result (length connections.old.waiting < most_waiting) }
    ensures counted { connections.new.taken ≡ connections.old.taken + 1 }
    ensures others { IfSome result (λ _. (connections.new.begun ≡ connections.old.begun) × (connections.new.waiting ≡ connections.old.waiting)) }
    ensures server { server.new ≡ server.old }
    ensures kept { D.faults door.new ≡ D.faults door.old }
    ensures coming { D.coming door.new ≡ D.coming door.old }
{
    let number = connections.count_one();
    let mut wire = wire;
    let received = hear_request(alloc, &mut wire);
    if connections.is_full() {
        return Some(answer_wire(alloc, server, door, wire, received));
    }
    let Ok(found) = asked_find(alloc, &received) else {
        return Some(refuse_heard(alloc, server, door, wire, received));
    };
    let Some(asked) = found else {
        return Some(answer_wire(alloc, server, door, wire, received));
    };
    let Ok(request) = received else {
        unreachable!()
    };
    connections.put_off(number, request, wire, asked, now);
    None
}
