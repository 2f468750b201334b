//! When a run passes a gate.
ghost use Rattle.std.specs.Prelude.{None};

use crate::runs::run_line;
use sb_outside::{Dice, Gate, Point};
use std::process::Abort;
use std::sync::atomic::{AtomicU32, Ordering};

fn count(number: &AtomicU32) {
    number.fetch_add(1, Ordering::SeqCst);
}

/// Dice whose words are 0, and which count them.
#[derive(Drop)]
pub struct CountedDice<'a> {
    words: &'a AtomicU32,
}

impl<'a> CountedDice<'a> {
    pub fn new(words: &'a AtomicU32) -> CountedDice<'a> {
        CountedDice { words }
    }
}

impl<'a> Dice for CountedDice<'a> {
    ghost given = { λ _. None };

    fn word(&mut self) -> u32 {
        count(self.words);
        0
    }
}

// A gate that counts how often it is passed, and how often before the round that it is passed for, where each round fails. A
// run draws a word when it begins, and one after each round that failed.
#[derive(Drop)]
struct CountedGate<'a> {
    words: &'a AtomicU32,
    passed: AtomicU32,
    before: AtomicU32,
}

impl<'a> Gate for CountedGate<'a> {
    fn pass(&self, point: Point) {
        count(&self.passed);
        if point == Point::Round(self.words.load(Ordering::SeqCst)) {
            count(&self.before);
        }
    }
}

const TWO_ROUNDS: &str = "sbupdate run --rounds=2 --store=s --server=h:1 MALWARE/ANY_PLATFORM/URL";

#[test]
fn a_gate_is_passed_before_each_round(rt: HostRuntime) {
    let drawn = AtomicU32::new(0);
    let gate = CountedGate {
        words: &drawn,
        passed: AtomicU32::new(0),
        before: AtomicU32::new(0),
    };
    let ran = run_line(&rt, rt.alloc(), TWO_ROUNDS, &[], &drawn, &gate).expect(&rt, "no memory");
    assert_eq!(rt; ran.status, 5);
    assert_eq!(rt; gate.passed.load(Ordering::SeqCst), 2);
    assert_eq!(rt; gate.before.load(Ordering::SeqCst), 2);
}
