ghost use Rattle.std.specs.Prelude.{◌<◌, length, IfSome};
ghost use Rattle.http_edge.specs.Places.{GoesOnTo, GoesTo};

use httparse::{is_header_name_token, is_header_value_token, is_method_token, is_uri_token};

/// The version without its last digit.
const VERSION: &[u8] = b"HTTP/1.";

/// Where a text ends that more bytes may make a head.
#[derive(Clone, Copy)]
pub(crate) enum HeadPlace {
    /// In front of the method, after empty lines or none.
    Blank,
    /// After the CR of an empty line in front of the method.
    BlankCr,
    Method,
    /// In the target, which begins at this byte.
    Target(usize),
    /// After the target, with so many bytes of the version.
    Version(usize),
    /// After the whole version.
    Minor,
    /// After the CR of the request line.
    LineCr,
    /// In front of a field, or of the empty line after the last.
    Line,
    /// After the CR of the empty line.
    LastCr,
    /// In the name of a field.
    Name,
    /// In the value of a field.
    Value,
    /// After the CR of a field.
    ValueCr,
    /// At none of these places, and the parser calls the text open: it is asked at each further byte. By the grammar no
    /// text comes here, which is not proved.
    Asked,
}

fn after_blank(byte: u8) -> Option<HeadPlace>
    ensures { IfSome result (GoesOnTo HeadPlace.Blank byte) }
{
    if byte == b'\r' {
        return Some(HeadPlace::BlankCr);
    }
    if byte == b'\n' {
        return Some(HeadPlace::Blank);
    }
    if is_method_token(byte) {
        return Some(HeadPlace::Method);
    }
    None
}

fn in_method(text: &[u8], byte: u8) -> Option<HeadPlace>
    ensures { IfSome result (GoesTo HeadPlace.Method byte text.now) }
{
    if byte == b' ' {
        return Some(HeadPlace::Target(text.len()));
    }
    if is_method_token(byte) {
        return Some(HeadPlace::Method);
    }
    None
}

/// The test for UTF-8 comes once, at the space after the target.
fn in_target(text: &[u8], start: usize, byte: u8) -> Option<HeadPlace>
    requires { 0 < length text.now }
    ensures { IfSome result (GoesTo (HeadPlace.Target start) byte text.now) }
{
    if is_uri_token(byte) {
        return Some(HeadPlace::Target(start));
    }
    let end = text.len() - 1;
    if byte != b' ' || end <= start {
        return None;
    }
    match str::from_utf8(&text[start..end]) {
        Ok(_) => Some(HeadPlace::Version(0)),
        Err(_) => None,
    }
}

fn in_version(known: usize, byte: u8) -> Option<HeadPlace>
    ensures { IfSome result (GoesOnTo (HeadPlace.Version known) byte) }
{
    if known < VERSION.len() && byte == VERSION[known] {
        return Some(HeadPlace::Version(known + 1));
    }
    if known == VERSION.len() && (byte == b'0' || byte == b'1') {
        return Some(HeadPlace::Minor);
    }
    None
}

fn after_version(byte: u8) -> Option<HeadPlace>
    ensures { IfSome result (GoesOnTo HeadPlace.Minor byte) }
{
    if byte == b'\r' {
        return Some(HeadPlace::LineCr);
    }
    if byte == b'\n' {
        return Some(HeadPlace::Line);
    }
    None
}

/// The LF that makes a head whole leads to no place.
fn at_line(byte: u8) -> Option<HeadPlace>
    ensures { IfSome result (GoesOnTo HeadPlace.Line byte) }
{
    if byte == b'\r' {
        return Some(HeadPlace::LastCr);
    }
    if is_header_name_token(byte) {
        return Some(HeadPlace::Name);
    }
    None
}

fn in_name(byte: u8) -> Option<HeadPlace>
    ensures { IfSome result (GoesOnTo HeadPlace.Name byte) }
{
    if byte == b':' {
        return Some(HeadPlace::Value);
    }
    if is_header_name_token(byte) {
        return Some(HeadPlace::Name);
    }
    None
}

fn in_value(byte: u8) -> Option<HeadPlace>
    ensures { IfSome result (GoesOnTo HeadPlace.Value byte) }
{
    if byte == b'\r' {
        return Some(HeadPlace::ValueCr);
    }
    if byte == b'\n' {
        return Some(HeadPlace::Line);
    }
    if is_header_value_token(byte) {
        return Some(HeadPlace::Value);
    }
    None
}

/// The place after a further byte, with which the text ends now. There is none where the byte makes the head whole, or
/// where no head goes on with it.
pub(crate) fn next_place(text: &[u8], place: HeadPlace, byte: u8) -> Option<HeadPlace>
    requires { 0 < length text.now }
    ensures { IfSome result (GoesTo place byte text.now) }
{
    match place {
        HeadPlace::Blank => after_blank(byte),
        HeadPlace::BlankCr if byte == b'\n' => Some(HeadPlace::Blank),
        HeadPlace::Method => in_method(text, byte),
        HeadPlace::Target(start) => in_target(text, start, byte),
        HeadPlace::Version(known) => in_version(known, byte),
        HeadPlace::Minor => after_version(byte),
        HeadPlace::LineCr if byte == b'\n' => Some(HeadPlace::Line),
        HeadPlace::Line => at_line(byte),
        HeadPlace::Name => in_name(byte),
        HeadPlace::Value => in_value(byte),
        HeadPlace::ValueCr if byte == b'\n' => Some(HeadPlace::Line),
        _ => None,
    }
}
