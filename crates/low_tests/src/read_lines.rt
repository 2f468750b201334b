//! What words give, where a command shows only that it refuses them.
ghost use Rattle.std.specs.Prelude.{IsTrue};
ghost use Rattle.sb_words.specs.CommandLine.{has_plain_names};
ghost use Rattle.sb_words.specs.Views.{shape_of};

use crate::words::words;
use sb_model::OutOfMemory;
use sb_words::{OptionKind, OptionShape, Shape, Words, read_words};
use std::alloc::Global;
use std::process::Abort;

static NO_OPTIONS: Shape = Shape {
    options: &[],
    takes_positionals: true,
};

static OPTIONS: Shape = Shape {
    options: &[
        OptionShape {
            name: "store",
            kind: OptionKind::Needed,
        },
        OptionShape {
            name: "rounds",
            kind: OptionKind::Needed,
        },
        OptionShape {
            name: "key",
            kind: OptionKind::Optional,
        },
        OptionShape {
            name: "no-digest",
            kind: OptionKind::Flag,
        },
    ],
    takes_positionals: true,
};

/// Lines of positional words, and behind an arrow what they give: `none` where they are refused.
const POSITIONALS: &str = ">|
a>| a
a b a>| a b a
help>| help
-->|
a -->| a
-- a>| a
a -- b -- c>| a b -- c
-- - -x --help --version=1>| - -x --help --version=1
a  b>| a  b
a=b =>| a=b =
žluť 名前>| žluť 名前
->none
a ->none
- -- a>none
-h>none
--help>none
--version>none
-V a>none
--a>none
--=>none
--=a>none
--->none
---->none
a --é>none
-é>none
-1>none";

/// Lines with options.
const VALUES: &str = "--store s --rounds 3 -- --key k>store=s rounds=3 | --key k
--store rounds --rounds store>store=rounds rounds=store |
--store a=b --rounds =>store=a=b rounds== |
--store==h --rounds a->store==h rounds=a- |
--store s-- --rounds a-b>store=s-- rounds=a-b |
--store žluť --rounds=名前 é>store=žluť rounds=名前 | é
--store true --rounds false --no-digest>store=true rounds=false no-digest=true |
--store s --rounds 3 help no-digest>store=s rounds=3 | help no-digest
--no-digest a --store s --key k --rounds 0 b>store=s rounds=0 key=k no-digest=true | a b
--store s>none
--rounds 3 a>none
--store s -- --rounds 3>none
--key k --store s --rounds 3 --key k>none";

/// What words give, as text: each option that they give, in the order of the shape, and the positional words.
fn text_of(alloc: Global, shape: &Shape, given: &Words<'_>) -> Result<String, OutOfMemory> {
    let mut text = String::new(alloc);
    for option in shape.options {
        if let Some(value) = given.value(option.name) {
            text.push_str(option.name)?;
            text.push('=')?;
            text.push_str(value)?;
            text.push(' ')?;
        }
    }
    text.push('|')?;
    for word in given.positionals() {
        text.push(' ')?;
        text.push_str(word)?;
    }
    Ok(text)
}

/// What a line gives, as text.
fn read(alloc: Global, shape: &Shape, line: &str) -> Result<String, OutOfMemory>
    requires { IsTrue (has_plain_names (shape_of shape.now)) }
{
    let words = words(alloc, line)?;
    match read_words(alloc, shape, words.as_slice())? {
        Some(given) => text_of(alloc, shape, &given),
        None => Ok(String::from_str(alloc, "none")?),
    }
}

/// Sees that each line of a text gives what stands behind its arrow.
fn give(rt: &impl Abort, alloc: Global, shape: &Shape, rows: &str)
    requires { IsTrue (has_plain_names (shape_of shape.now)) }
{
    for row in rows.split('\n') {
        let Some((line, text)) = row.rsplit_once('>') else {
            panic!(rt; "no row");
        };
        let given = read(alloc, shape, line).expect(rt, "out of memory");
        assert!(rt; given.as_str() == text, "{row}");
    }
}

#[test]
fn words_give_positional_words(rt: HostRuntime) {
    give(&rt, rt.alloc(), &NO_OPTIONS, POSITIONALS);
}

#[test]
fn words_give_options_their_values(rt: HostRuntime) {
    give(&rt, rt.alloc(), &OPTIONS, VALUES);
}

#[test]
fn a_name_that_the_words_do_not_give_has_no_value(rt: HostRuntime) {
    let words = words(rt.alloc(), "--store s --rounds 3 --no-digest a").expect(&rt, "memory");
    let Ok(Some(given)) = read_words(rt.alloc(), &OPTIONS, words.as_slice()) else {
        panic!(rt; "refused");
    };
    for name in "key raw-only wait  -- a -store true".split(' ') {
        assert!(rt; given.value(name).is_none() && !given.has(name), "{name}");
    }
    assert!(rt; given.has("store") && given.has("no-digest"));
}
