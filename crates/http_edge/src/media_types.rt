ghost use Rattle.std.specs.Prelude.{◌≡◌, ◌==◌, position};
ghost use Rattle.std.specs.List.{before_first};
ghost use Rattle.http_edge.specs.MediaTypes.{media_type_in};

use crate::digests::trim;

/// The place of the first `;`.
fn place_of_parameters(value: &[u8]) -> Option<usize>
    ensures { result ≡ position (λ byte. byte == 59) value.now }
{
    value.iter().position(|byte| *byte == b';')
}

/// What stands before the first `;`.
fn before_parameters(value: &[u8]) -> &[u8]
    ensures { result.now ≡ before_first (λ byte. byte == 59) value.now }
{
    match place_of_parameters(value) {
        Some(at) => &value[..at],
        None => value,
    }
}

/// The media type that a value of `Content-Type` names (RFC 9110, section 8.3.1): what stands before its first `;`, without spaces
/// and tabs around. It may be in capitals.
pub fn media_type_in(value: &[u8]) -> &[u8]
    ensures { result.now ≡ media_type_in value.now }
{
    trim(before_parameters(value))
}
