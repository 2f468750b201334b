ghost use Rattle.std.specs.Prelude.{◌≡◌, ◌<◌, ◌∷◌, ◌==◌, Some, None, if◌then◌else◌, length, [], IfSome, option_copied};
ghost use Rattle.std.specs.Option.{option_map_or};
ghost use Rattle.std.specs.List.{position_or_len, prefix_len, before_first, after_first, slice_split, list_any};
ghost use Rattle.url_canon.specs.Words.{without_leading};

use memchr::memchr;

/// The place of the first such byte, or the length where there is none.
pub fn place_of(text: &[u8], byte: u8) -> usize
    ensures { result ≡ position_or_len (λ b. b == byte) text.now }
{
    memchr(byte, text).unwrap_or(text.len())
}

/// How many such bytes the text begins with.
#[tactic(auto, using(crate::proofs::Cuts::places))]
fn count_leading(text: &[u8], byte: u8) -> usize
    ensures { result ≡ prefix_len (λ b. b == byte) text.now }
{
    text.iter().take_while(|b| **b == byte).count()
}

/// What stands before the first such byte, and what stands after it; the whole where there is none.
#[tactic(auto, using(crate::proofs::Cuts::places))]
pub fn split_at_byte(text: &[u8], byte: u8) -> (&[u8], Option<&[u8]>)
    ensures before { result.0.now ≡ before_first (λ b. b == byte) text.now }
    ensures after { option_copied result.1 ≡ (if list_any (λ b. b == byte) text.now
        then Some (after_first (λ b. b == byte) text.now) else None) }
    ensures parts { slice_split (λ b. b == byte) text.now
        ≡ result.0.now ∷ option_map_or (slice_split (λ b. b == byte)) (option_copied result.1) [] }
    ensures shorter { IfSome result.1 (λ rest. length rest.now < length text.now) }
{
    let place = place_of(text, byte);
    if place == text.len() {
        return (text, None);
    }
    (&text[..place], Some(&text[place + 1..]))
}

/// The text without such bytes at its front.
#[tactic(auto, using(crate::proofs::Cuts::places))]
pub fn without_leading(text: &[u8], byte: u8) -> &[u8]
    ensures { result.now ≡ without_leading (λ b. b == byte) text.now }
{
    &text[count_leading(text, byte)..]
}
