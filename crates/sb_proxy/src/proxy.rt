ghost use Rattle.std.specs.Prelude.{◌≡◌, ◌≢◌, ◌⊎◌, map, string_bytes, codes, None, Some};
ghost use Rattle.sb_words.specs.About.{about_of, about_text};
ghost use Rattle.sb_words.specs.declared.asking.About.{About as Asked};
ghost use Rattle.proxy_words.specs.ProxyLine.{ProxyWords, proxy_of};
ghost use Rattle.sb_proxy.specs.Runs.{IsProxyStatus, IsNoProxyCommand, IsProxyServed, IsProxyToldAbout, TellsUsage};

use crate::serving::serve;
use crate::telling::{tell_about, tell_usage};
use client_line::Line;
use proxy_run::ProxyWorld;
use proxy_words::{proxies_ask_sound_targets, proxy_line};
use sb_model::OutOfMemory;
use sb_outside::{Clock, Door, Keeper, Sink};
use sb_words::asked_about;
use std::alloc::Global;

/// What is printed where the words are no command line.
pub const USAGE: &str = "usage: sbproxy COMMAND\n\n  \
    sbproxy serve --store PATH --server HOST:PORT --listen HOST:PORT\n      \
    [--connections N] [--rounds N] [--patience S] [--peers N] [--answers MIB]\n      \
    [--key KEY] [--max-update N] [--max-database N] [--raw-only] [--no-digest] LIST..\n      \
    keeps one to eight lists up to date as a client of a list server, and answers look-ups of URLs\n      \
    over HTTP; without --patience, one waits up to 60 seconds until the server may be asked\n  \
    sbproxy --help | -h | --version\n      \
    writes this text, or the version\n";

/// What words that are no command line of `serve` lead to: what they ask about the program, or else the usage text.
fn tell<O: Sink>(alloc: Global, words: &[String], out: &mut O) -> u8
    ensures tells { (about : Asked) → about_of (codes "sbproxy") (map string_bytes words.now) ≡ Some about → result ≢ 8
        → IsProxyToldAbout (about_text about (codes "sbproxy") USAGE.now) result (O.contents out.old) (O.contents out.new) }
    ensures none { result ≡ 1 → about_of (codes "sbproxy") (map string_bytes words.now) ≡ None }
    ensures usage { result ≡ 1 → TellsUsage USAGE.now (O.contents out.old) (O.contents out.new)
        (O.faults out.old) (O.faults out.new) }
    ensures unasked { about_of (codes "sbproxy") (map string_bytes words.now) ≡ None → result ≡ 1 }
    ensures statuses { IsProxyStatus result }
    ensures memory { result ≡ 8 → out.new ≡ out.old }
{
    match asked_about(words, "sbproxy") {
        Some(about) => tell_about(alloc, about, USAGE, out),
        None => tell_usage(USAGE, out),
    }
}

/// Runs one command of a proxy, and answers the exit status. The first word is the program's name, `sbproxy`.
///
/// `serve` loads the store and takes turns: rounds of updates are made as a client makes them, connections are taken from the door, and
/// the server is asked where look-ups have hits, one find at a time for all of them. Each connection is answered as `proxy_run` says, and given
/// back to the door in every case, and then its line is written: `connection I answered S`, `connection I read-fault`,
/// `connection I write-fault` or `connection I out-of-memory`, I being the place in which it was taken, from 1. Each find has a line too, and
/// the last line has the counts.
///
/// `--help`, `-h` and `--version`, each as the only word after the name, write the usage text or the version.
///
/// | Status | Comes |
/// |---|---|
/// | 0 | where no other stands: after as many connections as were asked for, or if none is to come |
/// | 1 | exactly if the words are no command line: the usage text is written |
/// | 3 | only if the output's count of faults rose |
/// | 4 | only if the keeper failed |
/// | 8 | if memory was refused for the start, for a round, for the line of a connection or of a find, or for the counts |
/// | 9 | only if the door's count of faults rose |
///
/// The first that comes ends the run, and its status stays.
pub fn run_proxy<O: Sink, K: Keeper, N: Line, M: Line, C: Clock, D: Door>(
    alloc: Global,
    words: &[String],
    world: &mut ProxyWorld<O, K, N, M, C, D>,
) -> u8
where
    D::Wire: Drop,
    ensures statuses { IsProxyStatus result }

    // Words that are no command line: the usage text alone is written.
    ensures words { result ≡ 1 → IsNoProxyCommand (map string_bytes words.now) }
    ensures other_words { IsNoProxyCommand (map string_bytes words.now) → (result ≡ 1) ⊎ (result ≡ 8) }
    ensures usage { result ≡ 1 → TellsUsage USAGE.now world.old.looks.output world.new.looks.output
        world.old.looks.output_faults world.new.looks.output_faults }

    // Words of `serve`: a proxy is run by what they say.
    ensures serves { (line : ProxyWords) → proxy_of (map string_bytes words.now) ≡ Some line → IsProxyServed line result world.old world.new }

    // Words that ask about the program: the usage text alone is written, or a line of the program's name and its version.
    ensures tells { (about : Asked) → about_of (codes "sbproxy") (map string_bytes words.now) ≡ Some about → result ≢ 8
        → IsProxyToldAbout (about_text about (codes "sbproxy") USAGE.now) result world.old.looks.output world.new.looks.output }

    // If the words are none of `serve`, nothing but the output is used; and nothing is written if memory was refused.
    ensures untouched { proxy_of (map string_bytes words.now) ≡ None → world.new ≡ record world.old { looks = record world.old.looks { output = world.new.looks.output; output_faults = world.new.looks.output_faults } } }
    ensures memory { proxy_of (map string_bytes words.now) ≡ None → result ≡ 8 → world.new ≡ world.old }
{
    proxies_ask_sound_targets();
    match proxy_line(alloc, words) {
        Ok(Some(line)) => serve(alloc, line, world),
        Ok(None) => tell(alloc, words, &mut world.looks.out),
        Err(OutOfMemory) => 8,
    }
}
