ghost use Rattle.std.specs.Prelude.{◌≡◌};
ghost use Rattle.client_store.specs.Reading.{format_of};

/// How the prefixes of a list are stored.
#[derive(Clone, Copy, Debug)]
pub(crate) enum Format {
    /// Format 1: all have one size, which stands once.
    OneSize,
    /// Format 2: each has its size before it.
    EachSize,
}

impl Format {
    /// The format of a number.
    pub(crate) fn of_number(number: u8) -> Option<Format>
        ensures { result ≡ format_of number }
    {
        match number {
            1 => Some(Format::OneSize),
            2 => Some(Format::EachSize),
            _ => None,
        }
    }
}
