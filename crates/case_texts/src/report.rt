//! What is printed of cases that differ.
use crate::page::Page;
use crate::sheet::between;
use std::alloc::Global;

/// How many bytes are shown of a text.
const SHOWN: usize = 400;

/// The differences of a case, as lines.
#[derive(Drop)]
pub struct Differences {
    pub page: Page,
    /// The first line of what is compared, counted from 1.
    pub line: u64,
}

impl Differences {
    pub fn new(alloc: Global) -> Self {
        Differences {
            page: Page::new(alloc),
            line: 0,
        }
    }

    /// Whether there is a difference, or a fault on the way.
    pub fn is_decided(&self) -> bool {
        !self.page.bytes.is_empty() || !self.page.faults.is_none()
    }

    /// Appends other differences.
    pub fn append(&mut self, other: &Differences) {
        self.page.put(other.page.bytes.as_slice());
        self.page.faults.join(&other.page.faults);
    }

    /// Tells that no run came to what begins in this line, counted from 0.
    pub fn not_met(&mut self, line: usize) {
        self.page.put(b"  line ");
        self.page.put_number((line as u64).saturating_add(1));
        self.page.put(b": no run of the case comes to this\n");
    }

    /// Tells that what this line, counted from 0, lets fail stands beside an `each`.
    pub fn beside_each(&mut self, line: usize) {
        self.page.put(b"  line ");
        self.page.put_number((line as u64).saturating_add(1));
        self.page.put(b": a call fails beside `each`, so that the rounds would not end\n");
    }

    /// Begins a line about the run and something that it left.
    fn begin(&mut self, name: &[u8]) {
        self.page.put(b"  line ");
        self.page.put_number(self.line);
        self.page.put(b": ");
        self.page.put(name);
        self.page.put(b": ");
    }

    /// Tells of a number that is not the one that was to come.
    pub fn number(&mut self, name: &[u8], came: u64, wanted: u64) {
        if came == wanted {
            return;
        }
        self.begin(name);
        self.page.put_number(came);
        self.page.put(b" came, ");
        self.page.put_number(wanted);
        self.page.put(b" was to come\n");
    }

    /// Tells of bytes that are not those that were to come, from the line in which they differ on.
    pub fn bytes(&mut self, name: &[u8], came: &[u8], wanted: &[u8]) {
        if came == wanted {
            return;
        }
        let at = first_difference(came, wanted);
        let from = line_start(came, at);
        self.begin(name);
        self.put_lengths(at, came.len(), wanted.len());
        self.page.put(b"\n    came       ");
        put_shown(&mut self.page, came, from);
        self.page.put(b"\n    was to come ");
        put_shown(&mut self.page, wanted, from);
        self.page.put(b"\n");
    }

    /// Tells where bytes differ, and how many there are.
    fn put_lengths(&mut self, at: usize, came: usize, wanted: usize) {
        self.page.put(b"byte ");
        self.page.put_number(at as u64);
        self.page.put(b" of ");
        self.page.put_number(came as u64);
        self.page.put(b" differs, ");
        self.page.put_number(wanted as u64);
        self.page.put(b" were to come");
    }
}

/// How many bytes two texts have in common at their beginning.
fn first_difference(came: &[u8], wanted: &[u8]) -> usize {
    for (at, byte) in came.iter().enumerate() {
        match wanted.get(at) {
            Some(other) if *other == *byte => {}
            _ => return at,
        }
    }
    came.len()
}

/// Where the line of a place begins.
fn line_start(text: &[u8], at: usize) -> usize {
    let mut start = 0;
    for (place, byte) in between(text, 0, at).iter().enumerate() {
        if *byte == b'\n' {
            start = place.saturating_add(1);
        }
    }
    start
}

/// Appends so many bytes of a text from a place on.
fn put_shown(page: &mut Page, text: &[u8], from: usize) {
    for byte in between(text, from, from.saturating_add(SHOWN)) {
        put_byte(page, *byte);
    }
}

/// Appends a byte, in hexadecimal if it is not printed in ASCII.
fn put_byte(page: &mut Page, byte: u8) {
    match byte {
        b'\n' => page.put(b"\\n"),
        b'\r' => page.put(b"\\r"),
        32..=126 => page.put(&[byte]),
        _ => page.put(&[b'\\', b'x', hex_digit(byte / 16), hex_digit(byte % 16)]),
    }
}

fn hex_digit(number: u8) -> u8 {
    if number < 10 {
        number.saturating_add(b'0')
    } else {
        number.saturating_add(87)
    }
}
