//! One run of a case.
ghost use denote.Param.Send.{IsSync};

use crate::linking::{Links, links_of};
use case_texts::{Left, Objects, Place, Reader, lasting_field, objects_of, words_of};
use sb_model::{Bytes, Row};
use std::alloc::Global;
use std::sync::Wait;
use std::thread::Threads;

/// How many programs there are at most.
const MOST_PROGRAMS: usize = 16;

/// The programs whose runs cases make, by number from 0.
pub trait Programs {
    /// The name of the field that has a program's words, or `None` where there is no program of this number.
    fn field(&self, program: usize) -> Option<&'static [u8]>;

    /// Has a program run its words over the objects of a case and the links of its lines, and answers its exit status.
    fn run<R: Threads + Wait + Sync>(
        &self,
        rt: &R,
        alloc: Global,
        program: usize,
        words: &[String],
        objects: &mut Objects,
        links: &mut Links,
    ) -> u8
        requires { IsSync R.row };
}

/// The words of a command line, and the number of the program whose they are.
#[derive(Drop)]
struct Command {
    words: Row<String>,
    program: usize,
}

/// Makes a run, if memory lasts for its objects. This is what the keeper kept at the end of the run before, if it kept anything.
/// After a fault nothing is run.
pub fn run<R: Threads + Wait + Sync, P: Programs>(
    rt: &R,
    programs: &P,
    reader: &mut Reader,
    place: &Place<'_>,
    store: Option<Bytes>,
) -> Option<Left> {
    match objects_of(reader, place, store) {
        Ok(objects) => Some(run_over(rt, programs, reader, place, objects)),
        Err(_) => {
            reader.faults.refused();
            None
        }
    }
}

/// Makes a run over these objects.
fn run_over<R: Threads + Wait + Sync, P: Programs>(
    rt: &R,
    programs: &P,
    reader: &mut Reader,
    place: &Place<'_>,
    mut objects: Objects,
) -> Left {
    let mut links = links_of(reader, place);
    let status = run_words(rt, programs, reader, place, &mut objects, &mut links);
    reader.note_length(links.longest());
    Left {
        status,
        objects,
        sent: links.take_sent(reader),
        is_struck: links.is_struck(),
    }
}

/// Has a program run its words, and says with which status it ends.
fn run_words<R: Threads + Wait + Sync, P: Programs>(
    rt: &R,
    programs: &P,
    reader: &mut Reader,
    place: &Place<'_>,
    objects: &mut Objects,
    links: &mut Links,
) -> u8 {
    let Command { words, program } = command_of(programs, reader, place);
    if !reader.faults.is_none() {
        return 0;
    }
    programs.run(rt, reader.alloc, program, words.as_slice(), objects, links)
}

/// The words that a program is given: those of the last line that has any.
fn command_of<P: Programs>(programs: &P, reader: &mut Reader, place: &Place<'_>) -> Command {
    match last_words(programs, place) {
        Some((line, program)) => Command {
            words: words_of(reader, place.book.sheet.rest(line), line),
            program,
        },
        None => {
            reader.faults.line(place.scope.own.from);
            Command {
                words: Row::new(reader.alloc),
                program: 0,
            }
        }
    }
}

/// The last line that has the words of a program, and the program's number.
fn last_words<P: Programs>(programs: &P, place: &Place<'_>) -> Option<(usize, usize)> {
    let mut last = None;
    for program in 0..MOST_PROGRAMS {
        last = later(last, words_at(programs, place, program));
    }
    last
}

/// The line with the words of a program.
fn words_at<P: Programs>(
    programs: &P,
    place: &Place<'_>,
    program: usize,
) -> Option<(usize, usize)> {
    let name = programs.field(program)?;
    let line = lasting_field(&place.book.sheet, &place.scope, name)?;
    Some((line, program))
}

/// The later of two lines.
fn later(first: Option<(usize, usize)>, second: Option<(usize, usize)>) -> Option<(usize, usize)> {
    match (first, second) {
        (Some(first), Some(second)) if first.0 > second.0 => Some(first),
        (first, None) => first,
        (_, second) => second,
    }
}
