ghost use Rattle.std.specs.Prelude.{◌≡◌, ◌≢◌, ℕ, ◌≤◌, List, [], ◌∷◌, Bool, Option, Err, IfOk, OnOk, OnErr, IsErrOf};
ghost use Rattle.sb_outside.specs.Outside.{Rose};
ghost use Rattle.sb_model.specs.declared.time.Moment.{Moment};
ghost use Rattle.sb_outside.specs.declared.links.Kind.{Kind};
ghost use Rattle.sb_outside.specs.declared.links.Session.{Session};
ghost use Rattle.http_edge.specs.declared.messages.Target.{Target};
ghost use Rattle.http_edge.specs.Exchanges.{CountsSendFault, IsTarget, IsOpenExchange, HoldsSession, HoldsPart};
ghost use Rattle.client_line.specs.Lines.{LineView, KeepsClock, ReadsClock, WaitsUntil, Draws, ClosesAt};

use http_edge::{ExchangeFault, Exchanged, Target};
use sb_model::{Moment, OutOfMemory};
use sb_outside::Kind;
use std::alloc::Global;

/// A client's line to its server: a link, the clock by which sessions on it begin and end, and the dice of the waits between them.
pub trait Line {
    // what its objects tell, where it stands, and which objects these are
    ghost view: { Self → LineView };

    /// Reads the clock.
    fn now(&mut self) -> Moment
        ensures { ReadsClock result (view self.old) (view self.new) };

    /// A moment at or after the given one. It may wait until then.
    fn wait_until(&mut self, moment: Moment) -> Moment
        ensures { WaitsUntil moment result (view self.old) (view self.new) };

    /// Draws the next word.
    fn word(&mut self) -> u32
        ensures { Draws (result ∷ []) (view self.old) (view self.new) };

    /// Says whether what comes next in the session can be received without a wait. It waits for nothing itself.
    fn is_answered(&mut self) -> bool
        ensures { view self.new ≡ view self.old };

    /// Begins a session and sends a request in it, as `http_edge::begin_exchange` does, and says whether it was sent whole.
    /// The session is begun at `at`, which is the clock's last reading, and stays open: `end_exchange` ends it. If memory is
    /// refused, it is closed, at the clock's next reading.
    fn begin_exchange(
        &mut self,
        alloc: Global,
        at: Moment,
        target: &Target,
        kind: Kind,
        body: &[u8],
    ) -> Result<bool, OutOfMemory>
        requires read { (view self.old).last ≡ at.0 }
        requires target { IsTarget target.now }

        // One session more is open, and its request was sent whole or it failed. The clock was not read.
        ensures opened { IfOk result (λ sent. IsOpenExchange target.now kind body.now at
            (view self.old).told.log (view self.new).told.log sent) }
        ensures unread { OnOk result (KeepsClock (view self.old) (view self.new)) }

        // If memory is refused, the session was closed.
        ensures refused { OnErr result ((ended : Moment)
            × ((need : Bool) → HoldsPart target.now kind body.now at need ended
            (view self.old).told.log (view self.new).told.log)
            × ClosesAt at ended (view self.old) (view self.new)) }

        // A fault of the link is counted, and nothing else is.
        ensures faults { IfOk result (λ sent. CountsSendFault sent (view self.old).told.faults (view self.new).told.faults) }
        ensures unmoved { OnErr result ((view self.new).told.faults ≡ (view self.old).told.faults) }
        ensures counted { (view self.old).told.faults ≤ (view self.new).told.faults }

        // The objects are the same.
        ensures same { (view self.new).objects ≡ (view self.old).objects };

    /// Receives the response of a session that `begin_exchange` left open, as `http_edge::end_exchange` does. `sent` is what
    /// `begin_exchange` said. The session is closed at the clock's next reading, in every case.
    fn end_exchange(
        &mut self,
        alloc: Global,
        sent: bool,
        need_digest: bool,
    ) -> Result<Exchanged, OutOfMemory>
        // If the last session is one that was left open, it was held to its end, and this is its outcome.
        ensures session { (target : Target) (kind : Kind) (body : List ℕ) (at : Moment) (start : Option (List Session))
            → IsOpenExchange target kind body at start (view self.old).told.log sent
            → IfOk result (λ done. HoldsSession target kind body at need_digest done.ended start
            (view self.new).told.log done.answer) }
        ensures closed { (at : Moment) → (view self.old).last ≡ at.0
            → IfOk result (λ done. ClosesAt at done.ended (view self.old) (view self.new)) }
        ensures refused { OnErr result ((ended : Moment)
            × ((target : Target) (kind : Kind) (body : List ℕ) (at : Moment) (start : Option (List Session))
            → IsOpenExchange target kind body at start (view self.old).told.log sent
            → HoldsPart target kind body at need_digest ended start (view self.new).told.log)
            × ((at : Moment) → (view self.old).last ≡ at.0 → ClosesAt at ended (view self.old) (view self.new))) }

        // Over both parts, from a count at the start, a fault of the link is counted, and nothing else is.
        ensures failed { (start : ℕ) → CountsSendFault sent start (view self.old).told.faults
            → IfOk result (λ done. IsErrOf done.answer ExchangeFault.Link → Rose start (view self.new).told.faults) }
        ensures kept { (start : ℕ) → CountsSendFault sent start (view self.old).told.faults
            → IfOk result (λ done. done.answer ≢ Err ExchangeFault.Link → (view self.new).told.faults ≡ start) }
        ensures unmoved { (start : ℕ) → CountsSendFault sent start (view self.old).told.faults
            → OnErr result ((view self.new).told.faults ≡ start) }
        ensures counted { (view self.old).told.faults ≤ (view self.new).told.faults }

        // The objects are the same.
        ensures same { (view self.new).objects ≡ (view self.old).objects };

    /// Sends a request in a session of its own and receives the response, as `http_edge::exchange` does. The session is begun at
    /// `at`, which is the clock's last reading, and closed at its next one.
    fn exchange(
        &mut self,
        alloc: Global,
        at: Moment,
        target: &Target,
        kind: Kind,
        body: &[u8],
        need_digest: bool,
    ) -> Result<Exchanged, OutOfMemory>
        requires read { (view self.old).last ≡ at.0 }
        requires target { IsTarget target.now }

        // One session, begun and closed at these moments, whose outcome is the answer.
        ensures session { IfOk result (λ done. HoldsSession target.now kind body.now at need_digest done.ended
            (view self.old).told.log (view self.new).told.log done.answer) }
        ensures closed { IfOk result (λ done. ClosesAt at done.ended (view self.old) (view self.new)) }
        ensures refused { OnErr result ((ended : Moment) × HoldsPart target.now kind body.now at need_digest ended
            (view self.old).told.log (view self.new).told.log
            × ClosesAt at ended (view self.old) (view self.new)) }

        // A fault of the link is counted, and nothing else is.
        ensures failed { IfOk result (λ done. IsErrOf done.answer ExchangeFault.Link
            → Rose (view self.old).told.faults (view self.new).told.faults) }
        ensures kept { IfOk result (λ done. done.answer ≢ Err ExchangeFault.Link
            → (view self.new).told.faults ≡ (view self.old).told.faults) }
        ensures unmoved { OnErr result ((view self.new).told.faults ≡ (view self.old).told.faults) }
        ensures counted { (view self.old).told.faults ≤ (view self.new).told.faults }

        // The objects are the same.
        ensures same { (view self.new).objects ≡ (view self.old).objects }
    {
        let sent = self.begin_exchange(alloc, at, target, kind, body)?;
        self.end_exchange(alloc, sent, need_digest)
    }
}
