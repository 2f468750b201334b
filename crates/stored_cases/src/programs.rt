//! The three programs whose runs are stored.
use case_runs::{Links, Programs};
use case_texts::{Objects, Scripts};
use journal_run::run_journal;
use sb_client::run_client;
use sb_outside::OpenGate;
use sb_service::run_server;
use std::alloc::Global;
use std::sync::Wait;
use std::thread::Threads;

pub struct StoredPrograms;

impl Programs for StoredPrograms {
    fn field(&self, program: usize) -> Option<&'static [u8]> {
        match program {
            0 => Some(b"client"),
            1 => Some(b"server"),
            2 => Some(b"maker"),
            _ => None,
        }
    }

    fn run<R: Threads + Wait + Sync>(
        &self,
        rt: &R,
        alloc: Global,
        program: usize,
        words: &[String],
        objects: &mut Objects,
        links: &mut Links,
    ) -> u8 {
        match program {
            0 => client_status(rt, alloc, words, objects, links),
            1 => server_status(alloc, words, objects),
            _ => maker_status(alloc, words, objects),
        }
    }
}

fn client_status<R: Threads + Wait + Sync>(
    rt: &R,
    alloc: Global,
    words: &[String],
    objects: &mut Objects,
    links: &mut Links,
) -> u8 {
    let Objects {
        input,
        out,
        keep,
        scripts,
        ..
    } = objects;
    let Scripts { clock, dice, .. } = scripts;
    run_client(
        rt,
        alloc,
        words,
        input,
        out,
        keep,
        &mut links.first,
        clock,
        dice,
        &OpenGate,
    )
}

fn server_status(alloc: Global, words: &[String], objects: &mut Objects) -> u8 {
    let Objects {
        journal,
        input,
        out,
        scripts,
        ..
    } = objects;
    run_server(alloc, words, journal, input, out, &mut scripts.door)
}

fn maker_status(alloc: Global, words: &[String], objects: &mut Objects) -> u8 {
    let Objects {
        journal,
        input,
        out,
        scripts,
        ..
    } = objects;
    run_journal(alloc, words, journal, input, out, &mut scripts.dice)
}
