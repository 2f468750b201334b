ghost use Rattle.std.specs.Prelude.{◌≡◌, map, option_map, position, string_bytes};
ghost use Rattle.sb_words.specs.Barred.{ends_options as is_end, has_barred as has_barred_word, has_dashed_value as has_dashed, is_barred as is_barred_word};
ghost use Rattle.sb_words.specs.CommandLine.{is_equals, value_in};

/// Whether the word is `--`.
fn ends_options(word: &String) -> bool
    ensures { result ≡ is_end (string_bytes word.now) }
{
    word.as_str() == "--"
}

/// The place of the first `=`.
fn equals_in(text: &[u8]) -> Option<usize>
    ensures { result ≡ position is_equals text.now }
{
    text.iter().position(|byte| *byte == b'=')
}

/// What follows the first `=`.
fn value_after_equals(text: &[u8]) -> Option<&[u8]>
    ensures { option_map (λ s. s.now) result ≡ value_in text.now }
{
    let Some(equals) = equals_in(text) else {
        return None;
    };
    Some(&text[equals + 1..])
}

/// Whether the text after two dashes gives a value that begins with a dash.
fn has_dashed_value(text: &[u8]) -> bool
    ensures { result ≡ has_dashed text.now }
{
    match value_after_equals(text) {
        Some([b'-', ..]) => true,
        _ => false,
    }
}

/// Whether `clap` may take a word, before `--`, that no command line has: one that begins with a single dash, and one
/// that gives its option a value that begins with a dash.
fn is_barred(word: &String) -> bool
    ensures { result ≡ is_barred_word (string_bytes word.now) }
{
    match word.as_bytes() {
        [b'-', b'-', text @ ..] => has_dashed_value(text),
        [b'-', ..] => true,
        _ => false,
    }
}

/// Whether a word before the first `--` is barred.
pub(crate) fn has_barred(words: &[String]) -> bool
    ensures { result ≡ has_barred_word (map string_bytes words.now) }
{
    for word in words {
        if ends_options(word) {
            return false;
        }
        if is_barred(word) {
            return true;
        }
    }
    false
}
