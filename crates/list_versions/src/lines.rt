ghost use Rattle.std.specs.Prelude.{◌≡◌, ◌≤◌, ◌<◌, ◌*◌, ◌+◌, ◌^◌, ◌∷◌, ◌++◌, [], true, length, MatchOption, IfSome, position, codes, option_to_list, option_map, is_some};
ghost use Rattle.std.specs.Int.{w64, from_be_bytes};
ghost use Rattle.std.specs.Result.{result_ok};
ghost use Rattle.sb_model.specs.Names.{name_of};
ghost use Rattle.sb_model.specs.History.{IsPrefixSize};
ghost use Rattle.std.specs.Str.Parse.{digits_value as value_of_digits};
ghost use Rattle.std.specs.Char.{is_ascii_digit};
ghost use Rattle.std.specs.List.{list_all};
ghost use Rattle.list_versions.specs.Lines.{IsAdded, IsHead, is_space, words_in_line, is_numeral as is_numeral_text, within, short_number_of, size_of, bytes_in_digits, hash_of, form_of, header_of, header_of_words, head_of, head_of_words, list_head as list_head_of, change_head as change_head_of, added_in_line, added_of_words, removed_of};

use crate::draft::Listed;
use crate::heads::{Head, Header};
use crate::hex_digits::read_hash;
use crate::known::read_name;
use memchr::memchr;
use sb_model::{Added, read_list_name};

// The place of the first space.
fn space_in(text: &[u8]) -> Option<usize>
    ensures { result ≡ position is_space text.now }
{
    memchr(b' ', text)
}

fn has_space(text: &[u8]) -> bool
    ensures { result ≡ is_some (position is_space text.now) }
{
    space_in(text).is_some()
}

// What stands before the first space, and after it; `None` where there is no space.
fn split_word(text: &[u8]) -> Option<(&[u8], &[u8])>
    ensures { MatchOption result (words_in_line text.now ≡ text.now ∷ [])
        (λ halves. words_in_line text.now ≡ halves.0.now ∷ words_in_line halves.1.now) }
{
    let Some(space) = space_in(text) else {
        return None;
    };
    Some((&text[..space], &text[space + 1..]))
}

// ---- numbers

fn are_digits(text: &[u8]) -> bool
    ensures { result ≡ list_all is_ascii_digit text.now }
{
    text.iter().all(u8::is_ascii_digit)
}

// `0`, or digits that do not begin with 0.
fn is_numeral(text: &[u8]) -> bool
    ensures { result ≡ is_numeral_text text.now }
{
    are_digits(text) && !text.is_empty() && (text.len() == 1 || text[0] != b'0')
}

// The number that at most four digits write.
fn value_of(text: &[u8]) -> u32
    requires digits { list_all is_ascii_digit text.now ≡ true }
    requires short { length text.now ≤ 4 }
    ensures { result ≡ value_of_digits 10 text.now }
{
    let mut number = 0;
    for digit in text {
        number = number * 10 + u32::from(*digit - b'0');
    }
    number
}

fn if_within(low: u32, high: u32, number: u32) -> Option<u32>
    ensures value { result ≡ within low high number }
    ensures range { IfSome result (λ n. (low ≤ n) × (n ≤ high)) }
{
    if low <= number && number <= high {
        Some(number)
    } else {
        None
    }
}

// The decimal number that a text is, where it is in a range.
fn number(text: &[u8], low: u32, high: u32) -> Option<u32>
    ensures value { result ≡ short_number_of low high text.now }
    ensures range { IfSome result (λ n. (low ≤ n) × (n ≤ high)) }
{
    if !is_numeral(text) || text.len() > 4 {
        return None;
    }
    if_within(low, high, value_of(text))
}

// The size of a prefix.
fn prefix_size(text: &[u8]) -> Option<u8>
    ensures value { result ≡ size_of text.now }
    ensures range { IfSome result (λ n. (4 ≤ n) × (n ≤ 32)) }
{
    match number(text, 4, 32) {
        Some(size) => Some(size as u8),
        None => None,
    }
}

// Eight bytes in 16 digits, as a big-endian number.
fn epoch(digits: &[u8]) -> Option<u64>
    ensures { result ≡ option_map (from_be_bytes w64) (bytes_in_digits 8 digits.now) }
{
    if digits.len() != 16 {
        return None;
    }
    let mut bytes = [0; 8];
    match hex::decode_to_slice(digits, &mut bytes) {
        Ok(()) => Some(u64::from_be_bytes(bytes)),
        Err(_) => None,
    }
}

// ---- the first line of a journal and of a record

// Three or four words; `None` where there are fewer or more.
fn words(line: &[u8]) -> Option<(&[u8], &[u8], &[u8], Option<&[u8]>)>
    ensures { MatchOption result
        ((header_of line.now ≡ None) × (head_of line.now ≡ None))
        (λ found. words_in_line line.now ≡ found.0.now ∷ found.1.now ∷ found.2.now
        ∷ option_to_list (option_map (λ last. last.now) found.3)) }
{
    let Some((first, rest)) = split_word(line) else {
        return None;
    };
    let Some((second, rest)) = split_word(rest) else {
        return None;
    };
    let Some((third, rest)) = split_word(rest) else {
        return Some((first, second, rest, None));
    };
    if has_space(rest) {
        return None;
    }
    Some((first, second, third, Some(rest)))
}

// The form that a word names.
fn form(word: &[u8]) -> Option<bool>
    ensures { result ≡ form_of word.now }
{
    if word == b"1".as_slice() {
        Some(false)
    } else if word == b"2".as_slice() {
        Some(true)
    } else {
        None
    }
}

fn header_of_three(word: &[u8], form_word: &[u8], digits: &[u8]) -> Option<Header>
    ensures { result ≡ header_of_words (word.now ∷ form_word.now ∷ digits.now ∷ []) }
{
    if word != b"sblist".as_slice() {
        return None;
    }
    let sized = form(form_word)?;
    let epoch = epoch(digits)?;
    Some(Header { sized, epoch })
}

/// Reads the first line of a journal.
pub fn read_header(line: &[u8]) -> Option<Header>
    ensures { result ≡ header_of line.now }
{
    match words(line) {
        Some((word, form, digits, None)) => header_of_three(word, form, digits),
        _ => None,
    }
}

fn list_head(name: &[u8], size: &[u8]) -> Option<Head>
    ensures well { IfSome result IsHead }
    ensures value { result ≡ list_head_of (result_ok (name_of name.now)) (size_of size.now) }
{
    let Ok(name) = read_list_name(name) else {
        return None;
    };
    let size = prefix_size(size)?;
    Some(Head::List(name, size))
}

fn change_head(lists: &[Listed], name: &[u8], adds: &[u8], removes: &[u8]) -> Option<Head>
    ensures well { IfSome result IsHead }
    ensures value { result ≡ change_head_of (result_ok (name_of name.now)) (short_number_of 0 1024 adds.now) (short_number_of 0 1024 removes.now) }
{
    let name = read_name(lists, name)?;
    let adds = number(adds, 0, 1024)?;
    let removes = number(removes, 0, 1024)?;
    if adds + removes == 0 || adds + removes > 1024 {
        return None;
    }
    Some(Head::Change(name, adds, removes))
}

/// Reads the first line of a record.
pub fn read_head(line: &[u8]) -> Option<Head>
    ensures value { result ≡ head_of line.now }
    ensures well { IfSome result IsHead }
{
    read_head_among(&[], line)
}

/// Reads the first line of a record, after some lists were declared.
pub(crate) fn read_head_among(lists: &[Listed], line: &[u8]) -> Option<Head>
    ensures value { result ≡ head_of line.now }
    ensures well { IfSome result IsHead }
{
    match words(line) {
        Some((word, name, size, None)) if word == b"list".as_slice() => list_head(name, size),
        Some((word, name, adds, Some(removes))) if word == b"change".as_slice() => {
            change_head(lists, name, adds, removes)
        }
        _ => None,
    }
}

// ---- hash lines

fn sized_add(digits: &[u8], size: &[u8], declared: u8) -> Option<Added>
    ensures value { result ≡ added_of_words true declared (digits.now ∷ size.now ∷ []) }
    ensures well { IfSome result IsAdded }
{
    let hash = read_hash(digits)?;
    let size = prefix_size(size)?;
    Some(Added { hash, size })
}

// A text that is more than a hash.
fn longer_add(text: &[u8], sized: bool, declared: u8) -> Option<Added>
    requires { hash_of text.now ≡ None }
    ensures value { result ≡ added_of_words sized declared (words_in_line text.now) }
    ensures well { IfSome result IsAdded }
{
    let Some((digits, size)) = split_word(text) else {
        return None;
    };
    if !sized || has_space(size) {
        return None;
    }
    sized_add(digits, size, declared)
}

fn added_of_text(text: &[u8], sized: bool, declared: u8) -> Option<Added>
    ensures value { result ≡ added_of_words sized declared (words_in_line text.now) }
    ensures well { IsPrefixSize declared → IfSome result IsAdded }
{
    match read_hash(text) {
        Some(hash) => Some(Added {
            hash,
            size: declared,
        }),
        None => longer_add(text, sized, declared),
    }
}

/// Reads a line that adds. Without a size of its own the hash has the declared one.
pub fn read_add(line: &[u8], sized: bool, declared: u8) -> Option<Added>
    ensures value { result ≡ added_in_line sized declared line.now }
    ensures well { IsPrefixSize declared → IfSome result IsAdded }
{
    match line {
        [b'+', text @ ..] => added_of_text(text, sized, declared),
        _ => None,
    }
}

/// Reads a line that removes.
pub fn read_remove(line: &[u8]) -> Option<[u8; 32]>
    ensures value { result ≡ removed_of line.now }
    ensures whole { IfSome result (λ hash. length hash ≡ 32) }
{
    match line {
        [b'-', text @ ..] => read_hash(text),
        _ => None,
    }
}
