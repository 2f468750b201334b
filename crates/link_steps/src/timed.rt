ghost use Rattle.std.specs.Prelude.{◌≡◌};

use crate::counts::time_in_line;
use sb_model::Moment;
use sb_outside::{Failed, Kind, Link};
use std::io;
use std::time::{Duration, Instant};

/// How long a call may take that waits for nothing, in milliseconds.
const QUICK: u64 = 150;

/// The calls of a link.
#[derive(Clone, Copy)]
pub(crate) enum Call {
    Begin,
    Send,
    IsAnswered,
    Recv,
    Close,
}

impl Call {
    pub(crate) fn word(self) -> &'static str {
        match self {
            Call::Begin => "begin waited",
            Call::Send => "send waited",
            Call::IsAnswered => "is_answered waited",
            Call::Recv => "recv waited",
            Call::Close => "close waited",
        }
    }
}

/// When a call began, and for how long its thread had waited for a processor until then.
#[derive(Clone, Copy)]
struct Begun {
    at: io::Result<Instant>,
    in_line: u64,
}

/// How long a call took that began then, but for the time in which its thread waited for a processor.
fn time_since(rt: &HostRuntime, begun: Begun) -> Duration {
    let Ok(at) = begun.at else {
        return Duration::MAX;
    };
    let in_line = time_in_line(rt).saturating_sub(begun.in_line);
    match at.elapsed(rt) {
        Ok(passed) => passed.saturating_sub(Duration::from_nanos(in_line)),
        Err(_) => Duration::MAX,
    }
}

/// A link whose calls are timed.
#[derive(Drop)]
pub(crate) struct Timed<L> {
    rt: HostRuntime,
    pub(crate) link: L,
    /// How long the longest call took, and which that was.
    longest: Duration,
    which: Option<Call>,
}

impl<L> Timed<L> {
    pub(crate) fn new(rt: HostRuntime, link: L) -> Timed<L> {
        Timed {
            rt,
            link,
            longest: Duration::ZERO,
            which: None,
        }
    }

    /// Which call took so long that it waited, where one did.
    pub(crate) fn waited(&self) -> Option<Call> {
        if self.longest > Duration::from_millis(QUICK) {
            return self.which;
        }
        None
    }

    /// A call begins.
    fn begun(&self) -> Begun {
        Begun {
            at: Instant::now(&self.rt),
            in_line: time_in_line(&self.rt),
        }
    }

    /// A call that began then is over.
    fn note(&mut self, begun: Begun, which: Call)
        ensures { self.new.link ≡ self.old.link }
    {
        let passed = time_since(&self.rt, begun);
        if passed > self.longest {
            self.longest = passed;
            self.which = Some(which);
        }
    }
}

impl<L: Link> Link for Timed<L> {
    ghost faults = { λ s. L.faults s.link };

    ghost log = { λ s. L.log s.link };

    fn begin(&mut self, at: Moment, kind: Kind) -> Result<(), Failed> {
        let begun = self.begun();
        let given = self.link.begin(at, kind);
        self.note(begun, Call::Begin);
        given
    }

    fn send(&mut self, piece: &[u8]) -> Result<(), Failed> {
        let begun = self.begun();
        let given = self.link.send(piece);
        self.note(begun, Call::Send);
        given
    }

    fn is_answered(&mut self) -> bool {
        let begun = self.begun();
        let given = self.link.is_answered();
        self.note(begun, Call::IsAnswered);
        given
    }

    fn recv(&mut self, buffer: &mut [u8]) -> Result<usize, Failed> {
        let begun = self.begun();
        let given = self.link.recv(buffer);
        self.note(begun, Call::Recv);
        given
    }

    fn close(&mut self, at: Moment) {
        let begun = self.begun();
        self.link.close(at);
        self.note(begun, Call::Close);
    }
}
