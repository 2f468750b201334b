ghost use Rattle.std.specs.Prelude.{◌≡◌};
ghost use Rattle.gathering.specs.Deadlines.{counted_stretch};

/// How much of a stretch counts at most: a second.
const STRETCH: u64 = 1_000_000_000;

/// How much of the stretch between two looks at a door's clock counts, in nanoseconds: all of it, up to a second. So a peer's
/// time passes while others are served, and not while the machine sleeps.
pub fn counted(stretch: u64) -> u64
    ensures { result ≡ counted_stretch stretch }
{
    stretch.min(STRETCH)
}
