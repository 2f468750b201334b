ghost use Rattle.std.specs.Prelude.{◌≡◌, ◌<◌, ◌^◌, ◌++◌, [], ◌∷◌, List, length};
ghost use Rattle.verdict_report.specs.Printed.{counts_of, AreCounts};

use crate::verdicts::{Judged, Verdict};

/// How many URLs there are, and how many of each kind.
#[derive(Clone, Copy, Debug, PartialEq, Eq)]
pub struct Counts {
    pub urls: u64,
    pub safe: u64,
    pub found_unsafe: u64,
    pub undecided: u64,
    pub refused: u64,
}

impl Counts {
    /// No URLs.
    pub fn new() -> Counts
        ensures { result ≡ counts_of [] }
    {
        Counts {
            urls: 0,
            safe: 0,
            found_unsafe: 0,
            undecided: 0,
            refused: 0,
        }
    }

    /// Counts one more, of fewer than 2^63.
    pub fn add(&mut self, one: &Judged)
        requires { AreCounts self.old }
        ensures { (all : List Judged) → self.old ≡ counts_of all → self.new ≡ counts_of (all ++ one.now ∷ []) }
    {
        self.urls += 1;
        match one {
            Judged::Verdict { verdict, .. } => match verdict {
                Verdict::Safe => self.safe += 1,
                Verdict::Unsafe(_) => self.found_unsafe += 1,
                Verdict::Undecided(_) => self.undecided += 1,
            },
            Judged::Refused(_) => self.refused += 1,
        }
    }
}

/// The counts of some URLs.
pub(crate) fn counts_in(all: &[Judged]) -> Counts
    ensures { result ≡ counts_of all.now }
{
    let mut counts = Counts::new();
    for one in all {
        counts.add(one);
    }
    counts
}
