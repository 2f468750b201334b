//! The program whose runs are made: a proxy.
use crate::proxy::run_words;
use case_runs::{Links, Programs};
use case_texts::{Objects, Reader};
use std::alloc::Global;
use std::sync::Wait;
use std::thread::Threads;

/// The status of a run that was not made, since its input is of no form or memory was refused.
const NOT_MADE: u8 = 255;

pub struct ProxyPrograms;

impl Programs for ProxyPrograms {
    fn field(&self, program: usize) -> Option<&'static [u8]> {
        match program {
            0 => Some(b"server"),
            _ => None,
        }
    }

    fn run<R: Threads + Wait + Sync>(
        &self,
        _rt: &R,
        alloc: Global,
        _program: usize,
        words: &[String],
        objects: &mut Objects,
        links: &mut Links,
    ) -> u8 {
        let mut reader = Reader::new(alloc, 0);
        match run_words(&mut reader, words, objects, links) {
            Ok(status) if reader.faults.is_none() => status,
            _ => NOT_MADE,
        }
    }
}
