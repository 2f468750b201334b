ghost use Rattle.std.specs.Prelude.{◌≡◌, IfOk, IsTrue, map, option_map, is_some, string_bytes};
ghost use Rattle.sb_words.specs.Rows.{by_words};
ghost use Rattle.sb_words.specs.Views.{shape_of};
ghost use Rattle.sb_words.specs.CommandLine.{given_of, has_plain_names, value_among};

use crate::Shape;
use crate::barred::has_barred;
use crate::building::{POSITIONALS, command_of};
use clap::ArgMatches;
use clap::error::ErrorKind;
use clap::parser::ValueSource;
use sb_model::OutOfMemory;
use std::alloc::Global;
use std::marker::Model;

/// What the words of a command line give its command.
#[derive(Debug, Drop)]
pub struct Words<'a> {
    matches: ArgMatches<'a>,
    /// Nothing, which is lent where there are no positional words.
    none: Vec<&'a str>,
}

impl<'a> Model for Words<'a> {
    ghost use Rattle.std.specs.Prelude.{◌≡◌, []};
    ghost use Rattle.clap.specs.Words.{found_of, rows_of};
    ghost use Rattle.sb_words.specs.CommandLine.{Given};
    ghost use Rattle.sb_words.specs.Rows.{FindsValues, given_in};

    ghost Value = { Given };

    ghost view = { λ w. given_in (rows_of (found_of w.matches)) };

    ghost invariant = { λ w. (w.none.items ≡ []) × FindsValues (rows_of (found_of w.matches)) };
}

/// Whether a value came from the words, and from no default.
fn is_by_words(source: Option<ValueSource>) -> bool
    ensures { result ≡ by_words source }
{
    match source {
        Some(ValueSource::CommandLine) => true,
        _ => false,
    }
}

impl<'a> Words<'a> {
    /// The value that the words give an option. A flag that stands there has the value `true`.
    pub fn value(&self, name: &str) -> Option<&'a str>
        ensures { option_map (λ s. s.now) result ≡ value_among name.now self.now.named }
    {
        let given = is_by_words(self.matches.value_source(name));
        if name == POSITIONALS {
            return None;
        }
        if !given {
            return None;
        }
        self.matches.get_str(name)
    }

    /// Whether the words have the option or the flag.
    pub fn has(&self, name: &str) -> bool
        ensures { result ≡ is_some (value_among name.now self.now.named) }
    {
        self.value(name).is_some()
    }

    /// The positional words, in order.
    pub fn positionals(&self) -> &[&'a str]
        ensures { map (λ s. s.now) result.now ≡ self.now.positionals }
    {
        let Some(words) = self.matches.get_raw(POSITIONALS) else {
            return self.none.as_slice();
        };
        words
    }
}

/// Reads the words after a command's name. `None` comes exactly where they are no command line of the shape:
///
/// - an option is `--name value` or `--name=value`, a flag `--name`, each at most once, among the positional words;
/// - a value is not empty and does not begin with a dash;
/// - after a word `--` every word is positional, and every other word that begins with a dash is refused.
///
/// Names of the shape do not begin with a dash and are not empty.
pub fn read_words<'a>(
    alloc: Global,
    shape: &Shape,
    words: &'a [String],
) -> Result<Option<Words<'a>>, OutOfMemory>
    requires { IsTrue (has_plain_names (shape_of shape.now)) }
    ensures { IfOk result (λ given. given ≡ given_of (shape_of shape.now) (map string_bytes words.entry.now)) }
{
    if has_barred(words) {
        return Ok(None);
    }
    match command_of(alloc, shape)?.try_get_matches_from(words) {
        Ok(matches) => Ok(Some(Words {
            matches,
            none: Vec::new(alloc),
        })),
        Err(error) => match error.kind() {
            ErrorKind::OutOfMemory => Err(OutOfMemory),
            _ => Ok(None),
        },
    }
}
