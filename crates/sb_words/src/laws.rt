ghost use Rattle.std.specs.Prelude.{◌≡◌, List, IsTrue, None, true, false};
ghost use Rattle.sb_words.specs.Barred.{has_barred};
ghost use Rattle.sb_words.specs.CommandLine.{CommandShape, Text, given_of, has_plain_names};
ghost use Rattle.sb_words.specs.ClapCommand.{given_by_clap};

/// Words give what a parse by `clap` gives, whatever the shape. Only words that are barred beforehand, of which no
/// command line has one, may be read otherwise there.
pub fn clap_gives_the_same()
    ensures same { (shape : CommandShape) (words : List Text) → IsTrue (has_plain_names shape) → has_barred words ≡ false
        → given_of shape words ≡ given_by_clap shape words }
    ensures barred { (shape : CommandShape) (words : List Text) → has_barred words ≡ true → given_of shape words ≡ None }
{}
