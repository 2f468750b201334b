ghost use Rattle.std.specs.Prelude.{◌≤◌};

/// How many bytes the heads of answers have here.
pub(crate) const HEAD: usize = 19;

pub(crate) const GOOD: &[u8; HEAD] = b"HTTP/1.1 200 OK\r\n\r\n";

pub(crate) const BAD: &[u8; HEAD] = b"HTTP/1.1 400 NO\r\n\r\n";

/// How many bytes are written or read at a time.
pub(crate) const PIECE: usize = 4_096;

/// The tag of the answer to a peer, whose own number is the tag of its request.
pub(crate) fn answer_tag(number: u8) -> u8 {
    number | 128
}

/// The byte at a place of the bytes of a tag, which are words of four bytes: the tag, and the number of the word.
fn numbered(tag: u8, place: u64) -> u8 {
    let word = place / 4;
    match place % 4 {
        0 => tag,
        1 => ((word >> 16) & 0xff) as u8,
        2 => ((word >> 8) & 0xff) as u8,
        _ => (word & 0xff) as u8,
    }
}

/// Fills a piece with the bytes of a tag, from a place on.
pub(crate) fn fill_piece(piece: &mut [u8], tag: u8, place: u64) {
    let mut at = place;
    for byte in piece.iter_mut() {
        *byte = numbered(tag, at);
        at = at.saturating_add(1);
    }
}

/// The first place at which a piece differs from the bytes of a tag, where it begins at a place of them.
pub(crate) fn difference(piece: &[u8], tag: u8, place: u64) -> Option<u64> {
    let mut at = place;
    for byte in piece {
        if *byte != numbered(tag, at) {
            return Some(at);
        }
        at = at.saturating_add(1);
    }
    None
}

/// How many bytes of so many are in the next piece.
pub(crate) fn piece_of(left: u64) -> usize
    ensures { result ≤ PIECE }
{
    match usize::try_from(left) {
        Ok(left) => left.min(PIECE),
        Err(_) => PIECE,
    }
}
