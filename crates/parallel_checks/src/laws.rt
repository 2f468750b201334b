ghost use Rattle.parallel_checks.specs.Checks.{SeatsRemain};

/// The law of seats: after checks, and after they are settled, each is still one of those of its publisher.
pub fn seats_remain()
    ensures { SeatsRemain }
{}
