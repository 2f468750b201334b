//! The two programs whose runs are made: a mirror, and a client behind mirrors in a row.
use crate::mirror::run_words;
use crate::row::run_row;
use case_runs::{Links, Programs};
use case_texts::{Objects, Reader};
use std::alloc::Global;
use std::sync::Wait;
use std::thread::Threads;

/// The status of a run that was not made, since its input is of no form or memory was refused.
const NOT_MADE: u8 = 255;

pub struct MirrorPrograms;

impl Programs for MirrorPrograms {
    fn field(&self, program: usize) -> Option<&'static [u8]> {
        match program {
            0 => Some(b"client"),
            1 => Some(b"server"),
            _ => None,
        }
    }

    fn run<R: Threads + Wait + Sync>(
        &self,
        rt: &R,
        alloc: Global,
        program: usize,
        words: &[String],
        objects: &mut Objects,
        links: &mut Links,
    ) -> u8 {
        let mut reader = Reader::new(alloc, 0);
        let made = match program {
            0 => run_row(rt, &mut reader, words, objects),
            _ => run_words(
                &mut reader,
                words,
                objects,
                &mut links.first,
                &mut links.second,
            ),
        };
        match made {
            Ok(status) if reader.faults.is_none() => status,
            _ => NOT_MADE,
        }
    }
}
