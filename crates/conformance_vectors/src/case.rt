/// One example.
#[derive(Clone, Copy, Debug)]
pub enum Case {
    /// A text, and the text of its canonical URL.
    Canon {
        url: &'static [u8],
        text: &'static [u8],
    },
    /// A text that has no canonical URL, and the number of its fault: 1 where it is empty, 2 where
    /// it names no host, 3 where it is too long.
    Refused {
        url: &'static [u8],
        number: u8,
    },
    /// A text, and the expressions of its canonical URL in order, each ended by a newline.
    Expressions {
        url: &'static [u8],
        lines: &'static [u8],
    },
    /// Numbers, and the parameter and the bytes of a Rice record that stands for them. Its first
    /// value and its count are those of the numbers.
    Rice {
        values: &'static [u32],
        parameter: u32,
        coded: &'static [u8],
    },
}
