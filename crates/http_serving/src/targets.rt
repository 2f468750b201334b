ghost use Rattle.std.specs.Prelude.{◌≡◌, ◌+◌, ◌≤◌, ◌==◌, codes, false, true, length, nat_eq, position, MatchOption};
ghost use Rattle.std.specs.List.{before_first, prefix_len, starts_with};
ghost use Rattle.http_serving.specs.Targets.{begins_with_letter, from_slash, is_absolute, is_scheme_byte, path_in, without_authority};

// The place of the first such byte.
pub(crate) fn place_of(text: &[u8], wanted: u8) -> Option<usize>
    ensures { result ≡ position (λ byte. byte == wanted) text.now }
{
    text.iter().position(|byte| *byte == wanted)
}

/// What stands before the first `?`.
fn before_mark(target: &[u8]) -> &[u8]
    ensures { result.now ≡ before_first (λ byte. byte == 63) target.now }
{
    match place_of(target, b'?') {
        Some(mark) => &target[..mark],
        None => target,
    }
}

/// What stands from the first `/` on.
fn from_slash(text: &[u8]) -> &[u8]
    ensures { result.now ≡ from_slash text.now }
{
    match place_of(text, b'/') {
        Some(slash) => &text[slash..],
        None => &text[text.len()..],
    }
}

/// Whether a byte may stand in a scheme after its first letter.
fn is_scheme_byte(byte: u8) -> bool
    ensures { result ≡ is_scheme_byte byte }
{
    byte.is_ascii_alphanumeric() || byte == b'+' || byte == b'-' || byte == b'.'
}

/// How many bytes of a scheme a text begins with.
fn count_scheme_bytes(text: &[u8]) -> usize
    ensures { result ≡ prefix_len is_scheme_byte text.now }
{
    text.iter()
        .take_while(|byte| is_scheme_byte(**byte))
        .count()
}

fn begins_with_letter(text: &[u8]) -> bool
    ensures { result ≡ begins_with_letter text.now }
{
    match text {
        [] => false,
        [first, ..] => first.is_ascii_alphabetic(),
    }
}

fn begins_with_separator(text: &[u8]) -> bool
    ensures { result ≡ starts_with nat_eq text.now (codes "://") }
{
    text.starts_with(b"://")
}

/// How many bytes the scheme of a target in absolute form has; `None` of any other target.
fn scheme_len(target: &[u8]) -> Option<usize>
    ensures { MatchOption result (is_absolute target.now ≡ false)
        (λ len. (is_absolute target.now ≡ true) × (len ≡ prefix_len is_scheme_byte target.now)
        × (len + 3 ≤ length target.now)) }
{
    let len = count_scheme_bytes(target);
    if begins_with_letter(target) && begins_with_separator(&target[len..]) {
        Some(len)
    } else {
        None
    }
}

/// A target without its scheme and its authority, if it is in absolute form (RFC 9112, section 3.2.2).
fn without_authority(target: &[u8]) -> &[u8]
    ensures { result.now ≡ without_authority target.now }
{
    match scheme_len(target) {
        Some(len) => from_slash(&target[len + 3..]),
        None => target,
    }
}

/// The path of a target.
pub(crate) fn path_in(target: &[u8]) -> &[u8]
    ensures { result.now ≡ path_in target.now }
{
    without_authority(before_mark(target))
}
