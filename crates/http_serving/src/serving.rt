ghost use Rattle.std.specs.Prelude.{◌≡◌, ◌≢◌, ◌↔◌, ◌≤◌, ℕ, List, Option, Result, Err, IfOk, IfErr, IfSome, IsErrOf};
ghost use Rattle.sb_outside.specs.Outside.{Rose};
ghost use Rattle.http_edge.specs.declared.messages.HttpRequest.{HttpRequest};
ghost use Rattle.http_edge.specs.declared.messages.ResponseFields.{ResponseFields};
ghost use Rattle.http_edge.specs.declared.messages.Status.{Status};
ghost use Rattle.http_serving.specs.Hearing.{Hears, IsHeard};
ghost use Rattle.http_serving.specs.Law.{HasOneAnswer};
ghost use Rattle.http_serving.specs.Returning.{IsFresh, IsReturned};
ghost use Rattle.http_serving.specs.Routes.{AsksAt, IsRouted, Route, RoutedAnswer};
ghost use Rattle.http_serving.specs.Serving.{unavailable_text, IsAnswerAfter, IsComplete, IsServed, IsConnectionUntouched, IsWholeOrFault, Serves};
ghost use Rattle.http_serving.specs.Steps.{IsStopAfter};
ghost use Rattle.http_serving.specs.Written.{IsRightAnswer};

use crate::ends::ConnectionEnd;
use crate::responses::{Answer, bare, refusal_status, send, send_unavailable};
use crate::routes::Routed;
use http_edge::{
    Allow, HttpRequest, MediaType, RequestFault, ResponseFields, Status, read_request,
};
use sb_model::{Bytes, OutOfMemory};
use sb_outside::{Door, Wire};
use std::alloc::Global;

/// A server of requests, by a table of routes.
pub trait Answers {
    // the table
    ghost routes: { List Route };

    // what a right answer is to a request that asks for the route at a place, of a server that was so before it and is so after
    // it. It may be any relation, so also one of what a session of the server's own brought.
    ghost right: { Self → Self → ℕ → HttpRequest → Status → ResponseFields → (body cause : List ℕ) → Type 0 };

    // what an answer leaves of a server, whether it is given or memory was refused
    ghost stays: { Self → Self → Type 0 };

    /// What a request asks for.
    fn find(&self, request: &HttpRequest) -> Routed
        ensures { IsRouted routes request.now result };

    /// The answer to a request that asks for the route at a place: a response, or the text of one, which others may hold too.
    fn answer(
        &mut self,
        alloc: Global,
        place: usize,
        request: &HttpRequest,
    ) -> Result<Answer, OutOfMemory>
        requires { AsksAt routes request.now place }
        ensures right { IfOk result (λ answer. IsRightAnswer (right self.old self.new place request.now) answer) }
        ensures stays { stays self.old self.new };

    /// No two answers of a route are right for one request.
    fn have_one_answer()
        ensures { (before after : Self) (place : ℕ) (request : HttpRequest) → HasOneAnswer (right before after place) request };

    // where no answer was asked for, nothing changed
    ghost stays_itself: { (server : Self) → stays server server };
}

/// The fields of a response without a body.
fn plain_fields(allow: Allow) -> ResponseFields
    ensures { result ≡ record { allow = allow; media = MediaType.Json } }
{
    ResponseFields {
        allow,
        media: MediaType::Json,
    }
}

/// The answer to a request.
fn answer_routed<A: Answers>(
    alloc: Global,
    answers: &mut A,
    request: &HttpRequest,
) -> Result<Answer, OutOfMemory>
    ensures right { IfOk result (λ answer. IsRightAnswer (RoutedAnswer A.routes (A.right answers.old answers.new) request.now) answer) }
    ensures stays { A.stays answers.old answers.new }
{
    match answers.find(request) {
        Routed::Asked(place) => answers.answer(alloc, place, request),
        Routed::OtherMethod(allow) => {
            Ok(Answer::Made(bare(alloc, Status::MethodNotAllowed, plain_fields(allow))))
        }
        Routed::NoPath => {
            Ok(Answer::Made(bare(alloc, Status::NotFound, plain_fields(Allow::Post))))
        }
    }
}

/// The answer to what was received.
fn respond<A: Answers>(
    alloc: Global,
    answers: &mut A,
    received: Result<HttpRequest, RequestFault>,
) -> Result<Answer, ConnectionEnd>
    ensures right { IfOk result (λ answer.
        IsRightAnswer (IsAnswerAfter (RoutedAnswer A.routes (A.right answers.old answers.new)) received) answer) }
    ensures stop { IfErr result (λ end. IsStopAfter received end) }
    ensures stays { A.stays answers.old answers.new }
{
    match received {
        Ok(request) => match answer_routed(alloc, answers, &request) {
            Ok(answer) => Ok(answer),
            Err(OutOfMemory) => Err(ConnectionEnd::OutOfMemory),
        },
        Err(RequestFault::ReadFault) => Err(ConnectionEnd::ReadFault),
        Err(fault) => match refusal_status(fault) {
            Some(status) => Ok(Answer::Made(bare(alloc, status, plain_fields(Allow::Post)))),
            None => Err(ConnectionEnd::OutOfMemory),
        },
    }
}

/// Hears one request of a connection, and answers nothing yet (RFC 9112). No more is read than decides what it comes to.
pub fn hear_request<T: Wire>(alloc: Global, wire: &mut T) -> Result<HttpRequest, RequestFault>
    // What the wire gave, and what that comes to.
    ensures hears { Hears result (T.left wire.old) (T.left wire.new) }

    // A wire of which nothing was read has been heard, and nothing was written to it yet.
    ensures heard { (pieces : List (List ℕ))
        → IsFresh pieces (T.start wire.old) (T.left wire.old) (T.contents wire.old) (T.Source.faults wire.old) (T.Sink.faults wire.old)
        → IsHeard result pieces (T.start wire.new) (T.left wire.new) (T.contents wire.new) (T.Source.faults wire.new) (T.Sink.faults wire.new) }

    // A fault is counted, and nothing else is.
    ensures failed { IsErrOf result RequestFault.ReadFault → Rose (T.Source.faults wire.old) (T.Source.faults wire.new) }
    ensures kept { result ≢ Err RequestFault.ReadFault → T.Source.faults wire.new ≡ T.Source.faults wire.old }
    ensures counted { T.Source.faults wire.old ≤ T.Source.faults wire.new }

    // Nothing is written, and it is the same connection.
    ensures unwritten { T.contents wire.new ≡ T.contents wire.old }
    ensures write_kept { T.Sink.faults wire.new ≡ T.Sink.faults wire.old }
    ensures number { T.number wire.new ≡ T.number wire.old }
    ensures start { T.start wire.new ≡ T.start wire.old }
{
    read_request(alloc, wire)
}

/// Writes one response to what was heard, and nothing where memory is refused.
fn answer_received<A: Answers, T: Wire>(
    alloc: Global,
    answers: &mut A,
    wire: &mut T,
    received: Result<HttpRequest, RequestFault>,
) -> ConnectionEnd
    // What was written of the answer, whatever the wire gave before.
    ensures serves { (left : Option (List (List ℕ))) → Hears received left (T.left wire.old)
        → Serves (RoutedAnswer A.routes (A.right answers.old answers.new)) result left (T.left wire.new) (T.contents wire.old) (T.contents wire.new) }

    // A whole request that has an answer is answered with that, or not at all.
    ensures complete { (left : Option (List (List ℕ))) → Hears received left (T.left wire.old)
        → IfSome left (λ pieces. IsComplete (RoutedAnswer A.routes (A.right answers.old answers.new)) pieces result (T.contents wire.old) (T.contents wire.new)) }

    // Nothing is read.
    ensures read_fault { (result ≡ ConnectionEnd.ReadFault) ↔ (received ≡ Err RequestFault.ReadFault) }
    ensures unread { T.left wire.new ≡ T.left wire.old }
    ensures read_kept { T.Source.faults wire.new ≡ T.Source.faults wire.old }

    // A fault of writing is counted, and nothing else is.
    ensures write_failed { result ≡ ConnectionEnd.WriteFault → Rose (T.Sink.faults wire.old) (T.Sink.faults wire.new) }
    ensures write_kept { result ≢ ConnectionEnd.WriteFault → T.Sink.faults wire.new ≡ T.Sink.faults wire.old }
    ensures write_counted { T.Sink.faults wire.old ≤ T.Sink.faults wire.new }
    ensures silent { result ≡ ConnectionEnd.OutOfMemory → T.contents wire.new ≡ T.contents wire.old }

    // It is the same connection.
    ensures number { T.number wire.new ≡ T.number wire.old }
    ensures start { T.start wire.new ≡ T.start wire.old }

    // What an answer leaves of the server.
    ensures stays { A.stays answers.old answers.new }
{
    A::have_one_answer();
    match respond(alloc, answers, received) {
        Ok(answer) => send(alloc, wire, answer),
        Err(end) => end,
    }
}

/// Writes one response to what was heard of a connection, as `serve_connection` says: whenever that was, and whatever was done
/// with others since.
pub fn answer_request<A: Answers, T: Wire>(
    alloc: Global,
    answers: &mut A,
    wire: &mut T,
    received: Result<HttpRequest, RequestFault>,
) -> ConnectionEnd
    // What was written of the answer, whatever the wire gave before.
    ensures serves { (left : Option (List (List ℕ))) → Hears received left (T.left wire.old)
        → Serves (RoutedAnswer A.routes (A.right answers.old answers.new)) result left (T.left wire.new) (T.contents wire.old) (T.contents wire.new) }

    // A whole request that has an answer is answered with that or not at all, or memory was refused.
    ensures complete { (left : Option (List (List ℕ))) → Hears received left (T.left wire.old)
        → IfSome left (λ pieces. IsComplete (RoutedAnswer A.routes (A.right answers.old answers.new)) pieces result (T.contents wire.old) (T.contents wire.new)) }

    // Nothing is read.
    ensures read_fault { (result ≡ ConnectionEnd.ReadFault) ↔ (received ≡ Err RequestFault.ReadFault) }
    ensures unread { T.left wire.new ≡ T.left wire.old }
    ensures read_kept { T.Source.faults wire.new ≡ T.Source.faults wire.old }

    // A fault of writing is counted, and nothing else is.
    ensures write_failed { result ≡ ConnectionEnd.WriteFault → Rose (T.Sink.faults wire.old) (T.Sink.faults wire.new) }
    ensures write_kept { result ≢ ConnectionEnd.WriteFault → result ≢ ConnectionEnd.OutOfMemory
        → T.Sink.faults wire.new ≡ T.Sink.faults wire.old }
    ensures write_counted { T.Sink.faults wire.old ≤ T.Sink.faults wire.new }

    // If memory was refused, the whole 503 was written, or a write failed.
    ensures unavailable { result ≡ ConnectionEnd.OutOfMemory → IsWholeOrFault unavailable_text
        (T.contents wire.old) (T.contents wire.new) (T.Sink.faults wire.old) (T.Sink.faults wire.new) }

    // It is the same connection.
    ensures number { T.number wire.new ≡ T.number wire.old }
    ensures start { T.start wire.new ≡ T.start wire.old }

    // What an answer leaves of the server.
    ensures stays { A.stays answers.old answers.new }
{
    match answer_received(alloc, answers, wire, received) {
        ConnectionEnd::OutOfMemory => {
            send_unavailable(wire);
            ConnectionEnd::OutOfMemory
        }
        end => end,
    }
}

/// Reads one request and writes one response (RFC 9112).
///
/// A request that asks for a route is answered as the server says, and its cause is told. Other responses have no body and no
/// cause: 400 where the request is malformed or cut off; 404 where no route has its path; 405 where none of its path takes it, with
/// the method of the first one in `Allow`; 411 where the length of the body is not given; 413 where it is more than 1,048,576
/// bytes; 431 where the head is too long; 503 if memory is refused, of which a front may be written as with any other. What
/// follows a `?` in the target is looked at for the form of the request alone, and what follows the request is not looked at.
pub fn serve_connection<A: Answers, T: Wire>(
    alloc: Global,
    answers: &mut A,
    wire: &mut T,
) -> ConnectionEnd
    // What the wire gave, and what was written of the answer.
    ensures serves { Serves (RoutedAnswer A.routes (A.right answers.old answers.new)) result
        (T.left wire.old) (T.left wire.new) (T.contents wire.old) (T.contents wire.new) }

    // A whole request that has an answer is answered with that or not at all, or memory was refused.
    ensures complete { IfSome (T.left wire.old) (λ pieces. IsComplete (RoutedAnswer A.routes (A.right answers.old answers.new)) pieces result
        (T.contents wire.old) (T.contents wire.new)) }

    // A fault is counted, and nothing else is.
    ensures read_failed { result ≡ ConnectionEnd.ReadFault → Rose (T.Source.faults wire.old) (T.Source.faults wire.new) }
    ensures read_kept { result ≢ ConnectionEnd.ReadFault → T.Source.faults wire.new ≡ T.Source.faults wire.old }
    ensures read_counted { T.Source.faults wire.old ≤ T.Source.faults wire.new }
    ensures write_failed { result ≡ ConnectionEnd.WriteFault → Rose (T.Sink.faults wire.old) (T.Sink.faults wire.new) }
    ensures write_kept { result ≢ ConnectionEnd.WriteFault → result ≢ ConnectionEnd.OutOfMemory
        → T.Sink.faults wire.new ≡ T.Sink.faults wire.old }
    ensures write_counted { T.Sink.faults wire.old ≤ T.Sink.faults wire.new }

    // If memory was refused, the whole 503 was written, or a write failed.
    ensures unavailable { result ≡ ConnectionEnd.OutOfMemory → IsWholeOrFault unavailable_text
        (T.contents wire.old) (T.contents wire.new) (T.Sink.faults wire.old) (T.Sink.faults wire.new) }

    // It is the same connection.
    ensures number { T.number wire.new ≡ T.number wire.old }
    ensures start { T.start wire.new ≡ T.start wire.old }

    // What an answer leaves of the server.
    ensures stays { A.stays answers.old answers.new }
{
    let received = hear_request(alloc, wire);
    answer_request(alloc, answers, wire, received)
}

/// Serves a connection that a door handed out, and gives it back.
pub fn serve_wire<A: Answers, D: Door>(
    alloc: Global,
    answers: &mut A,
    door: &mut D,
    wire: D::Wire,
) -> ConnectionEnd
    // The log's entry of this connection says how it was served, and each other entry is as it was.
    ensures served { (pieces : List (List ℕ))
        → IsFresh pieces (D.Wire.start wire) (D.Wire.left wire) (D.Wire.contents wire) (D.Wire.Source.faults wire) (D.Wire.Sink.faults wire)
        → IsReturned (IsServed (RoutedAnswer A.routes (A.right answers.old answers.new)) result pieces) (D.Wire.number wire)
        (D.log door.old) (D.log door.new) }
    ensures kept { D.faults door.new ≡ D.faults door.old }
    ensures coming { D.coming door.new ≡ D.coming door.old }

    // What an answer leaves of the server.
    ensures stays { A.stays answers.old answers.new }
{
    let mut wire = wire;
    let end = serve_connection(alloc, answers, &mut wire);
    door.done(wire);
    end
}

/// Answers a connection that a door handed out and that was heard, and gives it back. Others may have been taken and given back
/// since it was heard.
pub fn answer_wire<A: Answers, D: Door>(
    alloc: Global,
    answers: &mut A,
    door: &mut D,
    wire: D::Wire,
    received: Result<HttpRequest, RequestFault>,
) -> ConnectionEnd
    // The log's entry of this connection says how it was served, and each other entry is as it was.
    ensures served { (pieces : List (List ℕ))
        → IsHeard received pieces (D.Wire.start wire) (D.Wire.left wire) (D.Wire.contents wire) (D.Wire.Source.faults wire) (D.Wire.Sink.faults wire)
        → IsReturned (IsServed (RoutedAnswer A.routes (A.right answers.old answers.new)) result pieces) (D.Wire.number wire)
        (D.log door.old) (D.log door.new) }
    ensures kept { D.faults door.new ≡ D.faults door.old }
    ensures coming { D.coming door.new ≡ D.coming door.old }

    // What an answer leaves of the server.
    ensures stays { A.stays answers.old answers.new }
{
    let mut wire = wire;
    let end = answer_request(alloc, answers, &mut wire, received);
    door.done(wire);
    end
}

/// Answers a connection that a door handed out and that was heard as one for which memory was refused: with the status 503 and no
/// body, of which a front may be written as with any other, and gives it back. This takes no memory. Others may have been taken and
/// given back since it was heard.
pub fn refuse_wire<A: Answers, D: Door>(answers: &A, door: &mut D, wire: D::Wire)
    // The log's entry of this connection says that memory was refused, and each other entry is as it was.
    ensures refused { (received : Result HttpRequest RequestFault) (pieces : List (List ℕ)) → received ≢ Err RequestFault.ReadFault
        → IsHeard received pieces (D.Wire.start wire) (D.Wire.left wire) (D.Wire.contents wire) (D.Wire.Source.faults wire) (D.Wire.Sink.faults wire)
        → IsReturned (IsServed (RoutedAnswer A.routes (A.right answers.now answers.now)) ConnectionEnd.OutOfMemory pieces) (D.Wire.number wire)
        (D.log door.old) (D.log door.new) }
    ensures kept { D.faults door.new ≡ D.faults door.old }
    ensures coming { D.coming door.new ≡ D.coming door.old }
{
    let mut wire = wire;
    send_unavailable(&mut wire);
    door.done(wire);
}

/// Gives back a connection as the door handed it out: nothing is read of it, and nothing is written to it.
pub fn give_back<D: Door>(door: &mut D, wire: D::Wire)
    ensures untouched { (pieces : List (List ℕ))
        → IsFresh pieces (D.Wire.start wire) (D.Wire.left wire) (D.Wire.contents wire) (D.Wire.Source.faults wire) (D.Wire.Sink.faults wire)
        → IsReturned IsConnectionUntouched (D.Wire.number wire) (D.log door.old) (D.log door.new) }
    ensures kept { D.faults door.new ≡ D.faults door.old }
    ensures coming { D.coming door.new ≡ D.coming door.old }
{
    door.done(wire)
}
