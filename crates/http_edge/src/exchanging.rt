ghost use Rattle.std.specs.Prelude.{◌≡◌, ◌≢◌, ℕ, ◌<◌, ◌≤◌, List, ◌++◌, [], length, Bool, false, Option, Some, None, encode_utf8_all, codes, decimal, IfOk, OnOk, OnErr, IsErrOf, IsTrue};
ghost use Rattle.sb_outside.specs.Outside.{Rose, IfTold, with_entry};
ghost use Rattle.sb_outside.specs.Sessions.{with_sent, with_failure};
ghost use Rattle.sb_model.specs.declared.time.Moment.{Moment};
ghost use Rattle.sb_outside.specs.declared.links.Session.{Session};
ghost use Rattle.sb_outside.specs.declared.links.Kind.{Kind};
ghost use Rattle.http_edge.specs.declared.messages.Target.{Target};
ghost use Rattle.http_edge.specs.Responses.{line};
ghost use Rattle.http_edge.specs.Exchanges.{CountsLinkFault, CountsSendFault, path_of_kind, query_of, request_head, IsTarget, HoldsSession, HoldsPart, IsConversation, IsPartOfConversation, IsOpenExchange};
ghost use Rattle.http_edge.specs.SessionBytes.{Turns, Receives, ReadsWhile, IsOpenHead, IsResponsePartsOf, IsDigestCompared, IsReceived, IsPartReceived, SendsFront};

use crate::heads::{PIECE, buffer_of};
use crate::paths::path_of;
use crate::receiving::Stop;
use crate::responding::{push_length, push_line};
use crate::response_heads::ResponseParts;
use crate::session_bytes::{BODY_LIMIT, ReceiveFault, receive_body, receive_head};
use crate::unchunking::receive_chunks;
use crate::{ExchangeFault, Framing, Target};
use hash_prefixes::full_hash;
use sb_model::{Bytes, Moment, OutOfMemory, Text};
use sb_outside::{Clock, Failed, Kind, Link};
use std::alloc::Global;

/// The body of a response that was received, or why there is none.
type Received = Result<Bytes, ExchangeFault>;

/// What came of an exchange, and when its session was closed.
#[derive(Debug, Drop)]
pub struct Exchanged {
    pub ended: Moment,
    pub answer: Result<Bytes, ExchangeFault>,
}

/// Compares the digest of a whole body.
fn compare_digest(body: Bytes, given: Option<[u8; 32]>, need_digest: bool) -> Received
    ensures { IsDigestCompared need_digest body given result }
{
    match given {
        Some(given) => {
            let got = full_hash(body.as_slice()).bytes;
            if got != given {
                return Err(ExchangeFault::Digest { got, given });
            }
            Ok(body)
        }
        None => {
            if need_digest {
                return Err(ExchangeFault::NoDigest);
            }
            Ok(body)
        }
    }
}

/// Receives a body whose length is given.
fn receive_by_length<L: Link>(
    alloc: Global,
    link: &mut L,
    buffer: &mut [u8],
    text: &Bytes,
    parts: ResponseParts,
    size: u64,
    need_digest: bool,
) -> Result<Received, OutOfMemory>
    requires room { length buffer.old ≡ PIECE }
    requires reads { ReadsWhile IsOpenHead text.now }
    requires parts { IsResponsePartsOf text.now parts }
    requires success { parts.status ≡ 200 }
    requires framing { parts.framing ≡ Framing.ByLength size }
    ensures received { (start : Option (List Session)) → Receives text.now false false start (L.log link.old)
        → IfOk result (λ answer. IsReceived need_digest start (L.log link.new) answer) }
    ensures refused { OnErr result ((start : Option (List Session)) → Receives text.now false false start (L.log link.old)
        → IsPartReceived need_digest start (L.log link.new)) }
    ensures counted { CountsLinkFault result (L.faults link.old) (L.faults link.new) }
{
    if size > BODY_LIMIT {
        return Ok(Err(ExchangeFault::BodyLimit(size)));
    }
    let mut body = Bytes::from_slice(alloc, &text.as_slice()[parts.start..])?;
    match receive_body(link, buffer, &mut body, size as usize) {
        Ok(()) => Ok(compare_digest(body, parts.digest, need_digest)),
        Err(Stop::Ended) => Ok(Err(ExchangeFault::Cut)),
        Err(Stop::Failed) => Ok(Err(ExchangeFault::Link)),
        Err(Stop::OutOfMemory) => Err(OutOfMemory),
    }
}

/// Receives a chunked body.
fn receive_chunked<L: Link>(
    alloc: Global,
    link: &mut L,
    buffer: &mut [u8],
    text: &Bytes,
    parts: ResponseParts,
    need_digest: bool,
) -> Result<Received, OutOfMemory>
    requires room { length buffer.old ≡ PIECE }
    requires reads { ReadsWhile IsOpenHead text.now }
    requires parts { IsResponsePartsOf text.now parts }
    requires success { parts.status ≡ 200 }
    requires framing { parts.framing ≡ Framing.Chunked }
    ensures received { (start : Option (List Session)) → Receives text.now false false start (L.log link.old)
        → IfOk result (λ answer. IsReceived need_digest start (L.log link.new) answer) }
    ensures refused { OnErr result ((start : Option (List Session)) → Receives text.now false false start (L.log link.old)
        → IsPartReceived need_digest start (L.log link.new)) }
    ensures counted { CountsLinkFault result (L.faults link.old) (L.faults link.new) }
{
    let body = Bytes::from_slice(alloc, &text.as_slice()[parts.start..])?;
    match receive_chunks(alloc, link, buffer, body) {
        Ok(body) => Ok(compare_digest(body, parts.digest, need_digest)),
        Err(ReceiveFault::Fault(fault)) => Ok(Err(fault)),
        Err(ReceiveFault::OutOfMemory) => Err(OutOfMemory),
    }
}

/// Receives what follows the head of a response.
fn receive_rest<L: Link>(
    alloc: Global,
    link: &mut L,
    buffer: &mut [u8],
    text: &Bytes,
    parts: ResponseParts,
    need_digest: bool,
) -> Result<Received, OutOfMemory>
    requires room { length buffer.old ≡ PIECE }
    requires reads { ReadsWhile IsOpenHead text.now }
    requires parts { IsResponsePartsOf text.now parts }
    ensures received { (start : Option (List Session)) → Receives text.now false false start (L.log link.old)
        → IfOk result (λ answer. IsReceived need_digest start (L.log link.new) answer) }
    ensures refused { OnErr result ((start : Option (List Session)) → Receives text.now false false start (L.log link.old)
        → IsPartReceived need_digest start (L.log link.new)) }
    ensures counted { CountsLinkFault result (L.faults link.old) (L.faults link.new) }
{
    if parts.status != 200 {
        return Ok(Err(ExchangeFault::Status(parts.status)));
    }
    match parts.framing {
        Framing::ByLength(length) => {
            receive_by_length(alloc, link, buffer, text, parts, length, need_digest)
        }
        Framing::Chunked => receive_chunked(alloc, link, buffer, text, parts, need_digest),
        Framing::Unframed => Ok(Err(ExchangeFault::NoLength)),
    }
}

/// Receives a whole response over a link whose last session sent its request (RFC 9112), whose body has a length or is
/// chunked, and has at most 201,326,592 bytes. It reads no further than to what decides the answer: past that come at most
/// the other bytes of one read, which are 65,535 at most. The session stays open.
pub fn receive_response<L: Link>(
    alloc: Global,
    link: &mut L,
    need_digest: bool,
) -> Result<Received, OutOfMemory>
    ensures received { IfOk result (λ answer. IsReceived need_digest (L.log link.old) (L.log link.new) answer) }
    ensures refused { OnErr result (IsPartReceived need_digest (L.log link.old) (L.log link.new)) }
    ensures counted { CountsLinkFault result (L.faults link.old) (L.faults link.new) }
{
    let mut buffer = buffer_of(alloc)?;
    let mut text = Bytes::new(alloc);
    match receive_head(alloc, link, buffer.as_mut_slice(), &mut text) {
        Ok(parts) => receive_rest(
            alloc,
            link,
            buffer.as_mut_slice(),
            &text,
            parts,
            need_digest,
        ),
        Err(ReceiveFault::Fault(fault)) => Ok(Err(fault)),
        Err(ReceiveFault::OutOfMemory) => Err(OutOfMemory),
    }
}

/// Sends a whole request. After an `Err` a front of it went out.
fn send_request<L: Link>(link: &mut L, head: &[u8], body: &[u8]) -> Result<(), Failed>
    ensures ok { OnOk result (Turns (with_sent (head.now ++ body.now)) (L.log link.old) (L.log link.new)) }
    ensures err { OnErr result (SendsFront (head.now ++ body.now) (L.log link.old) (L.log link.new)) }
    ensures failed { OnErr result (Rose (L.faults link.old) (L.faults link.new)) }
    ensures kept { OnOk result (L.faults link.new ≡ L.faults link.old) }
    ensures counted { L.faults link.old ≤ L.faults link.new }
{
    link.send(head)?;
    link.send(body)
}

// Appends the key, where there is one.
fn push_query(page: &mut Bytes, key: &Text) -> Result<(), OutOfMemory>
    ensures { OnOk result (page.new ≡ page.old ++ query_of key.now) }
{
    if key.is_empty() {
        return Ok(());
    }
    page.append(b"?key=")?;
    page.append(key.as_str().as_bytes())
}

/// What follows the method in a request line.
fn rest_of_line(alloc: Global, target: &Target, kind: Kind) -> Result<Bytes, OutOfMemory>
    ensures { IfOk result (λ text. text ≡ path_of_kind kind ++ query_of target.now.key ++ codes " HTTP/1.1") }
{
    let mut text = Bytes::from_slice(alloc, path_of(kind).as_bytes())?;
    push_query(&mut text, &target.key)?;
    text.append(b" HTTP/1.1")?;
    Ok(text)
}

// Appends the field that names the host.
fn push_host(page: &mut Bytes, host: &Text) -> Result<(), OutOfMemory>
    ensures { OnOk result (page.new ≡ page.old ++ line (codes "Host: " ++ encode_utf8_all host.now)) }
{
    push_line(page, b"Host: ", host.as_str().as_bytes())
}

/// The head of a request.
fn request_head(
    alloc: Global,
    target: &Target,
    kind: Kind,
    body: &[u8],
) -> Result<Bytes, OutOfMemory>
    ensures { IfOk result (λ head. head ≡ request_head target.now kind body.now) }
{
    let mut page = Bytes::new(alloc);
    let rest = rest_of_line(alloc, target, kind)?;
    push_line(&mut page, b"POST ", rest.as_slice())?;
    push_host(&mut page, &target.host)?;
    push_line(&mut page, b"Content-Type: ", b"application/json")?;
    push_length(&mut page, body.len())?;
    push_line(&mut page, b"Connection: ", b"close")?;
    push_line(&mut page, b"", b"")?;
    Ok(page)
}

/// Begins a session and sends a request in it, and says whether it was sent whole. The session stays open, also if memory
/// is refused.
fn open<L: Link>(
    alloc: Global,
    link: &mut L,
    at: Moment,
    target: &Target,
    kind: Kind,
    body: &[u8],
) -> Result<bool, OutOfMemory>
    ensures opened { IfOk result (λ sent. IsOpenExchange target.now kind body.now at (L.log link.old) (L.log link.new) sent) }
    ensures refused { OnErr result ((need : Bool) → IsPartOfConversation target.now kind body.now at need (L.log link.old) (L.log link.new)) }
    ensures faults { IfOk result (λ sent. CountsSendFault sent (L.faults link.old) (L.faults link.new)) }
    ensures unmoved { OnErr result (L.faults link.new ≡ L.faults link.old) }
    ensures counted { L.faults link.old ≤ L.faults link.new }
{
    match link.begin(at, kind) {
        Ok(()) => {}
        Err(Failed) => return Ok(false),
    }
    let head = request_head(alloc, target, kind, body)?;
    match send_request(link, head.as_slice(), body) {
        Ok(()) => Ok(true),
        Err(Failed) => Ok(false),
    }
}

/// Receives the response of a session whose request was sent whole. The others have none.
fn receive_if<L: Link>(
    alloc: Global,
    link: &mut L,
    sent: bool,
    need_digest: bool,
) -> Result<Received, OutOfMemory>
    ensures answer { (target : Target) (kind : Kind) (body : List ℕ) (at : Moment) (start : Option (List Session))
        → IsOpenExchange target kind body at start (L.log link.old) sent
        → IfOk result (λ answer. IsConversation target kind body at need_digest start (L.log link.new) answer) }
    ensures refused { (target : Target) (kind : Kind) (body : List ℕ) (at : Moment) (start : Option (List Session))
        → IsOpenExchange target kind body at start (L.log link.old) sent
        → OnErr result (IsPartOfConversation target kind body at need_digest start (L.log link.new)) }
    ensures failed { (start : ℕ) → CountsSendFault sent start (L.faults link.old)
        → IfOk result (λ answer. IsErrOf answer ExchangeFault.Link → Rose start (L.faults link.new)) }
    ensures kept { (start : ℕ) → CountsSendFault sent start (L.faults link.old)
        → IfOk result (λ answer. answer ≢ Err ExchangeFault.Link → L.faults link.new ≡ start) }
    ensures unmoved { (start : ℕ) → CountsSendFault sent start (L.faults link.old)
        → OnErr result (L.faults link.new ≡ start) }
    ensures counted { L.faults link.old ≤ L.faults link.new }
{
    if !sent {
        return Ok(Err(ExchangeFault::Link));
    }
    receive_response(alloc, link, need_digest)
}

/// Begins a session and sends a request in it, and says whether it was sent whole. Nothing is received, and the session
/// stays open: `end_exchange` ends it. The session is begun at `at`, which is the clock's last answer. If memory is refused,
/// it is closed, at the clock's next answer. Neither the host nor the key may have a CR or an LF.
pub fn begin_exchange<L: Link, C: Clock>(
    alloc: Global,
    link: &mut L,
    clock: &mut C,
    at: Moment,
    target: &Target,
    kind: Kind,
    body: &[u8],
) -> Result<bool, OutOfMemory>
    requires clock { C.last clock.old ≡ at.0 }
    requires target { IsTarget target.now }

    // One session more is open, and its request was sent whole or it failed.
    ensures opened { IfOk result (λ sent. IsOpenExchange target.now kind body.now at (L.log link.old) (L.log link.new) sent) }

    // The clock was not read.
    ensures unread { OnOk result ((C.answers clock.new ≡ C.answers clock.old) × (C.last clock.new ≡ C.last clock.old)) }

    // If memory is refused, the session was closed at the clock's next answer.
    ensures refused { OnErr result ((ended : Moment)
        × ((need : Bool) → HoldsPart target.now kind body.now at need ended (L.log link.old) (L.log link.new))
        × IfTold (C.answers clock.new) (with_entry (C.answers clock.old) ended)
        × (at.0 ≤ ended.0) × (C.last clock.new ≡ ended.0)) }

    // The clock is bidden to wait for nothing.
    ensures no_wait { C.waits clock.new ≡ C.waits clock.old }

    // A fault is counted, and nothing else is.
    ensures faults { IfOk result (λ sent. CountsSendFault sent (L.faults link.old) (L.faults link.new)) }
    ensures unmoved { OnErr result (L.faults link.new ≡ L.faults link.old) }
    ensures counted { L.faults link.old ≤ L.faults link.new }
{
    match open(alloc, link, at, target, kind, body) {
        Ok(sent) => Ok(sent),
        Err(OutOfMemory) => {
            let ended = clock.now();
            link.close(ended);
            Err(OutOfMemory)
        }
    }
}

/// Receives the response of a session that `begin_exchange` left open (RFC 9112), whose body has a length or is chunked,
/// and has at most 201,326,592 bytes. `sent` is what `begin_exchange` said. The session is closed at the clock's next
/// answer, in every case. It is read no further than to what decides the answer, as `exchange` says.
pub fn end_exchange<L: Link, C: Clock>(
    alloc: Global,
    link: &mut L,
    clock: &mut C,
    sent: bool,
    need_digest: bool,
) -> Result<Exchanged, OutOfMemory>
    // If the last session is one that was left open, it was held to its end, and this is its outcome. Nothing was read in it
    // past what decides that.
    ensures session { (target : Target) (kind : Kind) (body : List ℕ) (at : Moment) (start : Option (List Session))
        → IsOpenExchange target kind body at start (L.log link.old) sent
        → IfOk result (λ e. HoldsSession target kind body at need_digest e.ended start (L.log link.new) e.answer) }
    ensures refused { OnErr result ((ended : Moment)
        × ((target : Target) (kind : Kind) (body : List ℕ) (at : Moment) (start : Option (List Session))
        → IsOpenExchange target kind body at start (L.log link.old) sent
        → HoldsPart target kind body at need_digest ended start (L.log link.new))
        × IfTold (C.answers clock.new) (with_entry (C.answers clock.old) ended)
        × (C.last clock.old ≤ ended.0) × (C.last clock.new ≡ ended.0)) }

    // The session was closed at the clock's next answer.
    ensures ended { IfOk result (λ e. IfTold (C.answers clock.new) (with_entry (C.answers clock.old) e.ended)) }
    ensures rises { IfOk result (λ e. (C.last clock.old ≤ e.ended.0) × (C.last clock.new ≡ e.ended.0)) }

    // The clock is bidden to wait for nothing.
    ensures no_wait { C.waits clock.new ≡ C.waits clock.old }

    // Over both parts, from a count at the start, a fault is counted, and nothing else is.
    ensures failed { (start : ℕ) → CountsSendFault sent start (L.faults link.old)
        → IfOk result (λ e. IsErrOf e.answer ExchangeFault.Link → Rose start (L.faults link.new)) }
    ensures kept { (start : ℕ) → CountsSendFault sent start (L.faults link.old)
        → IfOk result (λ e. e.answer ≢ Err ExchangeFault.Link → L.faults link.new ≡ start) }
    ensures unmoved { (start : ℕ) → CountsSendFault sent start (L.faults link.old)
        → OnErr result (L.faults link.new ≡ start) }
    ensures counted { L.faults link.old ≤ L.faults link.new }
{
    let received = receive_if(alloc, link, sent, need_digest);
    let ended = clock.now();
    link.close(ended);
    let answer = received?;
    Ok(Exchanged { ended, answer })
}

/// Sends a request in a session of its own and receives the response (RFC 9112), whose body has a length or is
/// chunked, and has at most 201,326,592 bytes. The session is begun at `at`, which is the clock's last answer, and
/// closed at its next one, in every case. It is read no further than to what decides the answer: past that come at most
/// the other bytes of one read, which are 65,535 at most, and its end is not waited for. Neither the host nor the key
/// may have a CR or an LF.
pub fn exchange<L: Link, C: Clock>(
    alloc: Global,
    link: &mut L,
    clock: &mut C,
    at: Moment,
    target: &Target,
    kind: Kind,
    body: &[u8],
    need_digest: bool,
) -> Result<Exchanged, OutOfMemory>
    requires clock { C.last clock.old ≡ at.0 }
    requires target { IsTarget target.now }

    // One session, begun and closed at these moments, whose outcome is the answer. Nothing was read in it past what
    // decides that.
    ensures session { IfOk result (λ e. HoldsSession target.now kind body.now at need_digest e.ended (L.log link.old) (L.log link.new) e.answer) }
    ensures refused { OnErr result ((ended : Moment) × HoldsPart target.now kind body.now at need_digest ended (L.log link.old) (L.log link.new)
        × IfTold (C.answers clock.new) (with_entry (C.answers clock.old) ended)
        × (at.0 ≤ ended.0) × (C.last clock.new ≡ ended.0)) }

    // The session was closed at the clock's next answer.
    ensures ended { IfOk result (λ e. IfTold (C.answers clock.new) (with_entry (C.answers clock.old) e.ended)) }
    ensures rises { IfOk result (λ e. (at.0 ≤ e.ended.0) × (C.last clock.new ≡ e.ended.0)) }

    // The clock is bidden to wait for nothing.
    ensures no_wait { C.waits clock.new ≡ C.waits clock.old }

    // A fault is counted, and nothing else is.
    ensures failed { IfOk result (λ e. IsErrOf e.answer ExchangeFault.Link → Rose (L.faults link.old) (L.faults link.new)) }
    ensures kept { IfOk result (λ e. e.answer ≢ Err ExchangeFault.Link → L.faults link.new ≡ L.faults link.old) }
    ensures unmoved { OnErr result (L.faults link.new ≡ L.faults link.old) }
    ensures counted { L.faults link.old ≤ L.faults link.new }
{
    let sent = begin_exchange(alloc, link, clock, at, target, kind, body)?;
    end_exchange(alloc, link, clock, sent, need_digest)
}
