ghost use Rattle.std.specs.Prelude.{◌≡◌, ℕ, ◌<◌, ◌≤◌, ◌&&◌, ◌||◌, nat_le, nat_lt, List, [], ◌∷◌, ◌++◌, All};
ghost use Rattle.list_versions.specs.declared.stretch.Stretch.{Stretch as Span};
ghost use Rattle.list_versions.specs.Stretches.{ComesBefore};
ghost use Rattle.delta_server.specs.Sweeping.{Covers, StandsBefore, has_version, shows_first};

use list_versions::Stretch;

/// What the stretches so far of one prefix cover of the versions from a first one on.
#[derive(Clone, Copy)]
pub(crate) struct Covered {
    /// The prefix, as a number.
    pub(crate) head: u32,
    /// The last of them is the first to cover the versions from this one on ..
    pub(crate) begin: u32,
    /// .. and before this one. Those that they cover from `begin` on end here.
    pub(crate) reach: u32,
    /// Whether they cover the first version.
    pub(crate) held: bool,
}

// Whether the first version is covered by stretches so far or by the next one.
fn holds(before: bool, stretch: &Stretch, first: u32) -> bool
    ensures { result ≡ (before || has_version first stretch.now) }
{
    before || (stretch.from <= first && first < stretch.until)
}

impl Covered {
    /// No stretch of the lowest prefix.
    pub(crate) fn nothing(first: u32) -> Covered
        ensures covers { (end : ℕ) → first ≤ end → Covers result first end [] }
        ensures reach { result.reach ≡ first }
    {
        Covered {
            head: 0,
            begin: first,
            reach: first,
            held: false,
        }
    }

    // What is covered of the prefix of a stretch before it comes: nothing if its prefix is a new one.
    fn before(self, stretch: &Stretch, first: u32) -> Covered
        requires { first ≤ self.reach }
        ensures stands { (end : ℕ) (done : List Span) → Covers self first end done
            → All (λ earlier. ComesBefore earlier stretch.now) done → StandsBefore result first end done stretch.now }
        ensures low { first ≤ result.reach }
        ensures high { (end : ℕ) → first ≤ end → self.reach ≤ end → result.reach ≤ end }
    {
        if stretch.head == self.head {
            return self;
        }
        Covered {
            head: stretch.head,
            begin: first,
            reach: first,
            held: false,
        }
    }

    /// Goes on to the next stretch. What it covers anew are the versions from `begin` to `reach`.
    pub(crate) fn next(self, stretch: &Stretch, first: u32, end: u32) -> Covered
        requires low { first ≤ self.reach }
        requires high { self.reach ≤ end }
        requires from { stretch.now.from ≤ end }
        ensures covers { (done : List Span) → first < end → Covers self first end done
            → All (λ earlier. ComesBefore earlier stretch.now) done → Covers result first end (done ++ stretch.now ∷ []) }
        ensures anew { (done : List Span) (version : ℕ) → first ≤ version → version < end → Covers self first end done
            → All (λ earlier. ComesBefore earlier stretch.now) done
            → (nat_le result.begin version && nat_lt version result.reach) ≡ shows_first done stretch.now version }
        ensures head { result.head ≡ stretch.now.head }
        ensures begins { first ≤ result.begin }
        ensures order { result.begin ≤ result.reach }
        ensures ends { result.reach ≤ end }
    {
        let earlier = self.before(stretch, first);
        let begin = stretch.from.max(earlier.reach);
        Covered {
            head: stretch.head,
            begin,
            reach: stretch.until.min(end).max(begin),
            held: holds(earlier.held, stretch, first),
        }
    }
}
