//! Gates at which threads wait for one another, each for a limited time.
use sb_outside::{Gate, Point};
use std::sync::atomic::{AtomicBool, Ordering};
use std::thread;

// So many looks a thread waits at most: ten seconds and more.
const MOST_LOOKS: u32 = 100_000_000;

/// A sign that one thread gives, and another waits for.
#[derive(Drop)]
pub struct Sign {
    given: AtomicBool,
    seen: AtomicBool,
}

impl Sign {
    pub fn new() -> Sign {
        Sign {
            given: AtomicBool::new(false),
            seen: AtomicBool::new(false),
        }
    }

    pub fn give(&self) {
        self.given.store(true, Ordering::SeqCst);
    }

    /// Waits until it is given, or the limit is met.
    pub fn wait(&self) {
        for _look in 0..MOST_LOOKS {
            if self.given.load(Ordering::SeqCst) {
                self.seen.store(true, Ordering::SeqCst);
                return;
            }
            thread::yield_now();
        }
    }

    /// Whether one who waited saw it.
    pub fn was_seen(&self) -> bool {
        self.seen.load(Ordering::SeqCst)
    }
}

/// A gate at which the second check shows that it is come to, and waits until it may go on.
#[derive(Drop)]
pub struct Halt {
    pub reached: Sign,
    pub may_go_on: Sign,
}

impl Halt {
    pub fn new() -> Halt {
        Halt {
            reached: Sign::new(),
            may_go_on: Sign::new(),
        }
    }

    /// Whether both sides saw each other.
    pub fn was_kept(&self) -> bool {
        self.reached.was_seen() && self.may_go_on.was_seen()
    }
}

impl Gate for Halt {
    fn pass(&self, point: Point) {
        if point == Point::Check(1) {
            self.reached.give();
            self.may_go_on.wait();
        }
    }
}

/// Who comes to a point may not go on before another point was come to.
#[derive(Drop)]
pub struct Rule {
    held: Point,
    until: Point,
    came: Sign,
}

impl Rule {
    pub fn new(held: Point, until: Point) -> Rule {
        Rule {
            held,
            until,
            came: Sign::new(),
        }
    }

    // Tells that a point was come to.
    fn tell(&self, point: Point) {
        if point == self.until {
            self.came.give();
        }
    }

    fn hold(&self, point: Point) {
        if point == self.held {
            self.came.wait();
        }
    }
}

/// A gate with two rules.
#[derive(Drop)]
pub struct RuledGate {
    pub first: Rule,
    pub second: Rule,
}

impl RuledGate {
    /// Whether each point that is to be held was come to and held until the other, so that no limit was met.
    pub fn was_kept(&self) -> bool {
        self.first.came.was_seen() && self.second.came.was_seen()
    }
}

impl Gate for RuledGate {
    fn pass(&self, point: Point) {
        self.first.tell(point);
        self.second.tell(point);
        self.first.hold(point);
        self.second.hold(point);
    }
}
