ghost use Rattle.std.specs.Prelude.{◌≡◌, ◌≢◌, ◌⊎◌, map, string_bytes, codes, None, Some};
ghost use Rattle.sb_words.specs.About.{about_of, about_text};
ghost use Rattle.sb_words.specs.declared.asking.About.{About as Asked};
ghost use Rattle.mirror_words.specs.MirrorLine.{MirrorWords, mirror_of};
ghost use Rattle.sb_mirror.specs.Runs.{IsMirrorStatus, IsNoMirrorCommand, IsMirrorServed, IsToldAbout, TellsUsage};

use crate::serving::serve;
use crate::telling::{tell_about, tell_usage};
use client_line::Line;
use mirror_run::MirrorWorld;
use mirror_words::{mirror_line, mirrors_ask_sound_targets};
use sb_model::OutOfMemory;
use sb_outside::{Clock, Door, Keeper, Sink};
use sb_words::asked_about;
use std::alloc::Global;

/// What is printed where the words are no command line.
pub const USAGE: &str = "usage: sbmirror COMMAND\n\n  \
    sbmirror serve --store PATH --server HOST:PORT --listen HOST:PORT\n      \
    [--connections N] [--rounds N] [--wait S] [--peers N] [--answers MIB]\n      \
    [--key KEY] [--max-update N] [--max-database N] [--raw-only] [--no-digest] LIST..\n      \
    keeps one to eight lists up to date as a client of a list server, and serves them over HTTP to\n      \
    further clients; without --wait, fetches are to wait 1800 seconds\n  \
    sbmirror --help | -h | --version\n      \
    writes this text, or the version\n";

/// What words that are no command line of `serve` lead to: what they ask about the program, or else the usage text.
fn tell<O: Sink>(alloc: Global, words: &[String], out: &mut O) -> u8
    ensures tells { (about : Asked) → about_of (codes "sbmirror") (map string_bytes words.now) ≡ Some about → result ≢ 8
        → IsToldAbout (about_text about (codes "sbmirror") USAGE.now) result (O.contents out.old) (O.contents out.new) }
    ensures none { result ≡ 1 → about_of (codes "sbmirror") (map string_bytes words.now) ≡ None }
    ensures usage { result ≡ 1 → TellsUsage USAGE.now (O.contents out.old) (O.contents out.new)
        (O.faults out.old) (O.faults out.new) }
    ensures unasked { about_of (codes "sbmirror") (map string_bytes words.now) ≡ None → result ≡ 1 }
    ensures statuses { IsMirrorStatus result }
    ensures memory { result ≡ 8 → out.new ≡ out.old }
{
    match asked_about(words, "sbmirror") {
        Some(about) => tell_about(alloc, about, USAGE, out),
        None => tell_usage(USAGE, out),
    }
}

/// Runs one command of a mirror, and answers the exit status. The first word is the program's name, `sbmirror`.
///
/// `serve` loads the store and takes turns: rounds of updates are made as a client makes them, connections are taken from the door, and
/// finds are passed on to the server, one at a time. Each connection is answered as `mirror_serving` says, and given back to the door in
/// every case, and then its line is written: `connection I answered S`, `connection I read-fault` or `connection I write-fault`, with I
/// from 1 in the order in which they were taken.
///
/// `--help`, `-h` and `--version`, each as the only word after the name, write the usage text or the version.
///
/// | Status | Comes |
/// |---|---|
/// | 0 | where no other stands: after as many connections as were asked for, or if none is to come |
/// | 1 | exactly if the words are no command line: the usage text is written |
/// | 3 | only if the output's count of faults rose |
/// | 4 | only if the keeper failed |
/// | 8 | if memory was refused for the start, for a round or a place, or for the line of a connection |
/// | 9 | only if the door's count of faults rose |
///
/// The first that comes ends the run, and its status stays.
pub fn run_mirror<O: Sink, K: Keeper, N: Line, M: Line, C: Clock, D: Door>(
    alloc: Global,
    words: &[String],
    world: &mut MirrorWorld<O, K, N, M, C, D>,
) -> u8
where
    D::Wire: Drop,
    ensures statuses { IsMirrorStatus result }

    // Words that are no command line: the usage text alone is written.
    ensures words { result ≡ 1 → IsNoMirrorCommand (map string_bytes words.now) }
    ensures other_words { IsNoMirrorCommand (map string_bytes words.now) → (result ≡ 1) ⊎ (result ≡ 8) }
    ensures usage { result ≡ 1 → TellsUsage USAGE.now world.old.output world.new.output world.old.faults.output world.new.faults.output }

    // Words of `serve`: a mirror is run by what they say.
    ensures serves { (line : MirrorWords) → mirror_of (map string_bytes words.now) ≡ Some line → IsMirrorServed line result world.old world.new }

    // Words that ask about the program: the usage text alone is written, or a line of the program's name and its version.
    ensures tells { (about : Asked) → about_of (codes "sbmirror") (map string_bytes words.now) ≡ Some about → result ≢ 8
        → IsToldAbout (about_text about (codes "sbmirror") USAGE.now) result world.old.output world.new.output }

    // If the words are none of `serve`, nothing but the output is used; and nothing is written if memory was refused.
    ensures untouched { mirror_of (map string_bytes words.now) ≡ None → world.new ≡ record world.old { output = world.new.output; faults = record world.old.faults { output = world.new.faults.output } } }
    ensures memory { mirror_of (map string_bytes words.now) ≡ None → result ≡ 8 → world.new ≡ world.old }
{
    mirrors_ask_sound_targets();
    match mirror_line(alloc, words) {
        Ok(Some(line)) => serve(alloc, line, world),
        Ok(None) => tell(alloc, words, &mut world.out),
        Err(OutOfMemory) => 8,
    }
}
