ghost use Rattle.std.specs.Prelude.{◌≡◌, ℕ, ◌<◌, ◌≤◌, List, length, take, Option, IfOk, OnOk, OnErr};
ghost use Rattle.sb_outside.specs.Outside.{Rose, IfTold, with_entry};
ghost use Rattle.sb_outside.specs.Sessions.{begun_session, refused_session, with_sent, with_received, with_end, with_failure, with_close, last_changed};
ghost use Rattle.sb_outside.specs.declared.links.Session.{Session};

use crate::Failed;
use sb_model::{Bytes, Moment};

/// What a session asks the other side for.
#[derive(Clone, Copy, Debug, PartialEq, Eq, Hash)]
pub enum Kind {
    /// Updates of lists.
    Update,
    /// Full hashes.
    Find,
}

/// An entry of a link's log: one session with the other side.
#[derive(Debug, Drop)]
pub struct Session {
    pub kind: Kind,
    /// When it was to begin.
    pub begun: Moment,
    /// Whether it began. It is false where `begin` failed.
    pub began: bool,
    pub sent: Bytes,
    pub received: Bytes,
    /// Whether the other side answered the end of what it sends.
    pub ended: bool,
    /// Whether a call of the session failed, `begin` included.
    pub failed: bool,
    /// When it was closed.
    pub closed: Option<Moment>,
}

/// Where sessions are held with the other side, one after the other. Each call but `begin` is about the
/// session that began last.
pub trait Link {
    // how many faults there were
    ghost faults: { Self → ℕ };

    // where the link tells it: the sessions, in the order in which they began
    ghost log: { Self → Option (List Session) };

    /// Begins a session. It stands in the log in either case.
    fn begin(&mut self, at: Moment, kind: Kind) -> Result<(), Failed>
        ensures kept { OnOk result (faults self.new ≡ faults self.old) }
        ensures counted { faults self.old ≤ faults self.new }
        ensures failed { OnErr result (Rose (faults self.old) (faults self.new)) }
        ensures ok { OnOk result (IfTold (log self.new) (with_entry (log self.old) (begun_session at kind))) }
        ensures err { OnErr result (IfTold (log self.new) (with_entry (log self.old) (refused_session at kind))) };

    /// Sends a whole piece. After an `Err` a front of it went out.
    fn send(&mut self, piece: &[u8]) -> Result<(), Failed>
        ensures kept { OnOk result (faults self.new ≡ faults self.old) }
        ensures counted { faults self.old ≤ faults self.new }
        ensures failed { OnErr result (Rose (faults self.old) (faults self.new)) }
        ensures ok { OnOk result (IfTold (log self.new) (last_changed (with_sent piece.now) (log self.old))) }
        ensures err { OnErr result ((n : ℕ) × (n ≤ length piece.now) × IfTold (log self.new)
            (last_changed (λ session. with_failure (with_sent (take n piece.now) session)) (log self.old))) };

    /// Says whether what comes next in the session can be received without a wait. It waits for nothing itself. Which of
    /// both it says is no matter of any contract: a link that cannot tell says yes.
    fn is_answered(&mut self) -> bool
        ensures faults { faults self.new ≡ faults self.old }
        ensures log { log self.new ≡ log self.old };

    /// Takes the next bytes into the front of the buffer, and says how many. Zero for a buffer that is
    /// not empty is the session's end. What the buffer holds after the bytes, or after an `Err`, is
    /// not said.
    fn recv(&mut self, buffer: &mut [u8]) -> Result<usize, Failed>
        ensures within { IfOk result (λ n. n ≤ length buffer.new) }
        ensures kept { OnOk result (faults self.new ≡ faults self.old) }
        ensures counted { faults self.old ≤ faults self.new }
        ensures failed { OnErr result (Rose (faults self.old) (faults self.new)) }
        ensures bytes { IfOk result (λ n. 0 < n →
            IfTold (log self.new) (last_changed (with_received (take n buffer.new)) (log self.old))) }
        ensures end { IfOk result (λ n. n ≡ 0 → 0 < length buffer.new →
            IfTold (log self.new) (last_changed with_end (log self.old))) }
        ensures idle { OnOk result (length buffer.new ≡ 0 → log self.new ≡ log self.old) }
        ensures err { OnErr result (IfTold (log self.new) (last_changed with_failure (log self.old))) };

    /// Ends the session. It cannot fail.
    fn close(&mut self, at: Moment)
        ensures kept { faults self.new ≡ faults self.old }
        ensures closed { IfTold (log self.new) (last_changed (with_close at) (log self.old)) };
}
