//! A program of cases: it reads them from its input, and prints those that come to something else than they say.
use crate::cases::run_book;
use crate::running::Programs;
use case_texts::{Book, CaseFault, Reader, Sheet};
use real_objects::{StdSink, StdSource};
use sb_model::{Bytes, OutOfMemory};
use sb_outside::{read_to_end, write_all};
use std::alloc::Global;
use std::process::ExitCode;
use std::sync::Wait;
use std::thread::Threads;

/// How many bytes all cases may have.
const LIMIT: usize = 67_108_864;

/// What is printed of the cases of a text.
fn page_of<R: Threads + Wait + Sync, P: Programs>(
    rt: &R,
    programs: &P,
    alloc: Global,
    text: Bytes,
) -> Result<Bytes, CaseFault> {
    let mut reader = Reader::new(alloc, 0);
    let sheet = Sheet::new(&mut reader, text);
    let book = Book::new(&mut reader, sheet);
    match reader.faults.get() {
        Some(fault) => Err(fault),
        None => run_book(rt, programs, alloc, &book),
    }
}

/// What is printed where the cases could not be run.
fn fault_page(alloc: Global, fault: CaseFault) -> Bytes {
    let mut page = Bytes::new(alloc);
    let _ = match fault {
        CaseFault::Line(line) => push_line(&mut page, line),
        CaseFault::OutOfMemory => page.append(b"out of memory\n"),
    };
    page
}

fn push_line(page: &mut Bytes, line: usize) -> Result<(), OutOfMemory> {
    page.append(b"line ")?;
    page.append_decimal((line as u64).saturating_add(1))?;
    page.append(b" is of no form\n")
}

/// Reads cases from standard input, has these programs run them over objects in memory, and prints on standard output each that
/// comes to something else than it says, and how many there were. It ends with 0; with 1 if a line is of no form or memory was
/// refused, 2 if the input cannot be read or has more than 67,108,864 bytes, and 3 if the output cannot be written. The handle is
/// for threads.
pub fn run_cases<R: Threads + Wait + Sync, P: Programs>(
    rt: &HostRuntime,
    handle: &R,
    programs: &P,
) -> ExitCode {
    let alloc = rt.alloc();
    let Ok(text) = read_to_end(alloc, &mut StdSource::new(rt.stdin()), LIMIT) else {
        return ExitCode::from(2);
    };
    let mut out = StdSink::new(rt.stdout());
    let (page, status) = match page_of(handle, programs, alloc, text) {
        Ok(page) => (page, 0),
        Err(fault) => (fault_page(alloc, fault), 1),
    };
    match write_all(&mut out, page.as_slice()) {
        Ok(()) => ExitCode::from(status),
        Err(_) => ExitCode::from(3),
    }
}
