//! One run of a proxy.
use crate::input::{book_of, place_of};
use case_runs::{CaseLink, Links};
use case_texts::{Objects, Reader, Scripts, objects_of};
use client_line::LentLine;
use memory_objects::{ScriptClock, ScriptDice};
use proxy_run::{LookWorld, ProxyWorld};
use sb_model::{OutOfMemory, Row};
use sb_proxy::run_proxy;
use std::alloc::Global;
use std::mem;

/// A line of a proxy.
type CaseLine<'l> = LentLine<'l, 'l, 'l, CaseLink, ScriptClock, ScriptDice>;

/// Runs a proxy by these words over objects, with a link for its updates and one for its finds, and gives its status. The input says what the
/// clocks of both lines read, which words the dice of the finds have, and at which calls of the door a moment comes. If it has connections,
/// they come in the place of others.
pub fn run_words(
    reader: &mut Reader,
    words: &[String],
    objects: &mut Objects,
    links: &mut Links,
) -> Result<u8, OutOfMemory> {
    let book = book_of(reader, &mut objects.input);
    let place = place_of(&book);
    let late = place.numbers(reader, b"late");
    let mut of_finds = objects_of(reader, &place, None)?.scripts;
    let mut own = objects_of(reader, &place, None)?;
    mem::swap(&mut own, objects);
    if !place.fields(reader, &[b"connection"]).is_empty() {
        mem::swap(&mut own.scripts.door, &mut objects.scripts.door);
    }
    mem::swap(&mut own.scripts.dice, &mut objects.scripts.dice);
    let updates = line_of(&mut links.first, &mut objects.scripts);
    let finds = line_of(&mut links.second, &mut of_finds);
    let (status, left) = run_over(reader.alloc, words, own, late, updates, finds);
    *objects = left;
    Ok(status)
}

fn line_of<'l>(link: &'l mut CaseLink, scripts: &'l mut Scripts) -> CaseLine<'l> {
    LentLine {
        link,
        clock: &mut scripts.clock,
        dice: &mut scripts.dice,
    }
}

/// Runs a proxy over objects and these lines, and gives what it left.
fn run_over(
    alloc: Global,
    words: &[String],
    own: Objects,
    late: Row<u64>,
    updates: CaseLine<'_>,
    finds: CaseLine<'_>,
) -> (u8, Objects) {
    let Objects {
        input,
        journal,
        out,
        keep,
        scripts: Scripts { clock, dice, door },
    } = own;
    let mut world = ProxyWorld {
        keep,
        updates,
        clock,
        looks: LookWorld {
            out,
            finds,
            door: door.with_late(late),
        },
    };
    let status = run_proxy(alloc, words, &mut world);
    let ProxyWorld {
        keep,
        updates: _,
        clock,
        looks: LookWorld {
            out,
            finds: _,
            door,
        },
    } = world;
    let left = Objects {
        input,
        journal,
        out,
        keep,
        scripts: Scripts { clock, dice, door },
    };
    (status, left)
}
