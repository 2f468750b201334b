ghost use Rattle.std.specs.Prelude.{◌≡◌};
ghost use Rattle.std.specs.Char.{is_ascii_digit};
ghost use Rattle.std.specs.List.{list_all};
ghost use Rattle.sb_json.specs.Values as spec;

/// A number that is not above `most`.
pub(crate) fn at_most(number: Option<u64>, most: u64) -> Option<u64>
    ensures { result ≡ spec.at_most most number }
{
    match number {
        Some(number) if number <= most => Some(number),
        _ => None,
    }
}

fn are_digits(text: &[u8]) -> bool
    ensures { result ≡ list_all is_ascii_digit text.now }
{
    text.iter().all(u8::is_ascii_digit)
}

/// Whether a text is `0`, or digits that do not begin with 0.
fn is_numeral(text: &[u8]) -> bool
    ensures { result ≡ spec.is_numeral text.now }
{
    are_digits(text) && !text.is_empty() && (text.len() == 1 || text[0] != b'0')
}

/// The number that a numeral of any length stands for, where it is not above `most`.
pub(crate) fn numeral(text: &str, most: u64) -> Option<u64>
    ensures { result ≡ spec.at_most most (spec.numeral text.now) }
{
    if !is_numeral(text.as_bytes()) {
        return None;
    }
    match text.parse::<u64>() {
        Ok(number) => at_most(Some(number), most),
        Err(_) => None,
    }
}
