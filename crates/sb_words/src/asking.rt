ghost use Rattle.std.specs.Prelude.{◌≡◌, [], IfOk, map, string_bytes};
ghost use Rattle.sb_words.specs.About.{about_of, about_text, asked_by};

use sb_model::{Bytes, OutOfMemory};
use std::alloc::Global;

/// The version of the programs.
pub const VERSION: &str = "0.1.0";

/// What words ask about a program itself.
#[derive(Clone, Copy, Debug, PartialEq, Eq)]
pub enum About {
    /// How it is used.
    Usage,
    /// Which version it is.
    Version,
}

/// What a word asks about a program.
fn asked_by(word: &str) -> Option<About>
    ensures { result ≡ asked_by word.now }
{
    match word {
        "--help" | "-h" => Some(About::Usage),
        "--version" => Some(About::Version),
        _ => None,
    }
}

/// What words ask about the program with this name: `--help` and `-h` how it is used, and `--version` which version it is,
/// each as the only word after the name. `None` comes exactly if they ask none of these.
pub fn asked_about(words: &[String], name: &str) -> Option<About>
    ensures { result ≡ about_of name.now (map string_bytes words.now) }
{
    match words {
        [program, word] if program.as_str() == name => asked_by(word.as_str()),
        _ => None,
    }
}

/// The line with the name and the version of a program.
fn version_line(alloc: Global, name: &str) -> Result<Bytes, OutOfMemory>
    ensures { IfOk result (λ line. line ≡ about_text About.Version name.now []) }
{
    let mut line = Bytes::from_slice(alloc, name.as_bytes())?;
    line.push(b' ')?;
    line.append(VERSION.as_bytes())?;
    line.push(b'\n')?;
    Ok(line)
}

/// What is printed of the program with this name, of which this is the usage text.
pub fn about_text(
    alloc: Global,
    about: About,
    name: &str,
    usage: &str,
) -> Result<Bytes, OutOfMemory>
    ensures { IfOk result (λ text. text ≡ about_text about name.now usage.now) }
{
    match about {
        About::Usage => Bytes::from_slice(alloc, usage.as_bytes()),
        About::Version => version_line(alloc, name),
    }
}
