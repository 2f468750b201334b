ghost use Rattle.std.specs.Prelude.{◌≡◌, ◌≤◌, ℕ, List, false, length, None, Some};
ghost use Rattle.base64.specs.Engines.{standard};
ghost use Rattle.base64.specs.GeneralPurpose.{IsBytes, encode_of};
ghost use Rattle.serde_json.specs.Data.{Data};
ghost use Rattle.serde_json.specs.Written.{compact_text, has_float};
ghost use Rattle.sb_json.specs.Counts.{openings_in, values_in};
ghost use Rattle.sb_json.specs.Density.{most_openings, most_values, openings_of, too_dense, values_of};
ghost use Rattle.sb_json.specs.Values.{base64_of};

/// Bytes that are written in standard padded base64 are read again.
pub fn encoded_bytes_read_again()
    ensures { (bytes : List ℕ) → IsBytes bytes → base64_of (encode_of standard bytes) ≡ Some bytes }
{}

/// What the text of a written value counts is what the value has, unless it has a float, whose text is not said. A text is
/// not too dense exactly where it counts no more openings and no more values than it may.
pub fn written_texts_are_counted()
    ensures counts { (d : Data) → has_float d ≡ false
        → (openings_of (compact_text d) ≡ openings_in d) × (values_of (compact_text d) ≡ values_in d) }
    ensures clear { (text : List ℕ) → openings_of text ≤ most_openings (length text)
        → values_of text ≤ most_values (length text) → too_dense text ≡ None }
    ensures dense { (text : List ℕ) → too_dense text ≡ None
        → (openings_of text ≤ most_openings (length text)) × (values_of text ≤ most_values (length text)) }
{}
