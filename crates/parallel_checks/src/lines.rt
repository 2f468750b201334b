ghost use Rattle.std.specs.Prelude.{◌≡◌, ◌+◌, ◌<◌, min};

/// The place of a seat's line after this one, of so many in all; this count where it has no further one.
pub(crate) fn next_line(index: usize, step: usize, count: usize) -> usize
    requires within { index < count }
    ensures { result ≡ min count (index + step) }
{
    if count - index <= step {
        count
    } else {
        index + step
    }
}
