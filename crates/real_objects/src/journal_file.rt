ghost use Rattle.std.specs.Prelude.{◌≡◌, ◌++◌, ◌<◌, ◌≤◌, length, take, None, true, false, IsErr, IfOk, OnOk, OnErr};
ghost use Rattle.sb_outside.specs.Outside.{Rose, GivesFront, AnswersEnd};
ghost use Rattle.real_objects.specs.Tails.{tail_of};

use crate::Why;
use crate::regular_files::{is_same_file, metadata_of, open_seen};
use crate::standard::read_again;
use sb_model::OutOfMemory;
use sb_outside::{Failed, Source};
use std::alloc::Global;
use std::fs;
use std::fs::{File, Files, Metadata, OpenOptions};
use std::marker::Model;
use std::os::unix::fs::FileExt;

/// How many of the last bytes that were read are compared with the file before it is read on.
const TAIL: usize = 4_096;

/// A source over a file that others append to, as a journal. It tells nothing of what is left. A path that leads to no
/// regular file is not opened. Before it reads on after an end it looks whether the path still leads to the file that
/// is open, and whether that file still has what was read: it is no shorter, and its last bytes there are the same.
/// After a fault each read fails. Contracts see it as whether it can be read, and its count of faults.
#[derive(Drop)]
pub struct JournalFile<R> {
    rt: R,
    file: Option<OpenJournal>,
    faults: u64,
    why: Option<Why>,
}

/// The file, and what was read of it.
#[derive(Drop)]
struct OpenJournal {
    path: String,
    file: File,
    opened: Metadata,
    /// How many bytes it gave.
    given: u64,
    /// The last of these.
    tail: Vec<u8>,
    /// Whether it answered an end, and gave nothing since.
    at_end: bool,
}

impl<R> Model for JournalFile<R> {
    ghost use Rattle.std.specs.Prelude.{ℕ, Bool, is_some};

    ghost Value = { Bool × ℕ };

    ghost view = { λ s. (is_some s.file, s.faults) };
}

impl<R: Files<File = File> + Drop> JournalFile<R> {
    /// The file at this path, links followed. Where it cannot be opened, each read fails.
    pub fn open(rt: R, alloc: Global, path: &str) -> Result<Self, OutOfMemory>
        ensures { IfOk result (λ journal. journal.1 ≡ 0) }
    {
        let path = String::from_str(alloc, path)?;
        let tail = Vec::with_capacity(alloc, 2 * TAIL)?;
        Ok(match open_file(&rt, path.as_str()) {
            Ok((file, opened)) => JournalFile {
                rt,
                file: Some(OpenJournal {
                    path,
                    file,
                    opened,
                    given: 0,
                    tail,
                    at_end: false,
                }),
                faults: 0,
                why: None,
            },
            Err(why) => JournalFile {
                rt,
                file: None,
                faults: 0,
                why: Some(why),
            },
        })
    }
}

impl<R: Drop> JournalFile<R> {
    /// A journal that has no path. Each read fails.
    pub fn unusable(rt: R) -> Self
        ensures { result ≡ (false, 0) }
    {
        JournalFile {
            rt,
            file: None,
            faults: 0,
            why: None,
        }
    }

    /// How many reads failed.
    pub fn faults(&self) -> u64
        ensures { result ≡ self.now.1 }
    {
        self.faults
    }

    /// Why it cannot be read, where that was found out.
    pub fn why(&self) -> Option<Why> {
        self.why
    }
}

/// Looks where a path leads, and opens the regular file there.
fn open_file<R: Files<File = File>>(rt: &R, path: &str) -> Result<(File, Metadata), Why> {
    let seen = match fs::metadata(rt, path) {
        Ok(seen) => seen,
        Err(e) => return Err(Why::system("cannot be opened", e)),
    };
    let file = open_seen(rt, path, OpenOptions::new().read(true), &seen)?;
    Ok((file, seen))
}

/// Keeps the last bytes of those that were kept and those that came after them.
fn keep_tail(tail: &mut Vec<u8>, given: &[u8]) -> Result<(), OutOfMemory>
    ensures { OnOk result (tail.new.items ≡ tail_of TAIL (tail.old.items ++ given.now)) }
{
    if given.len() >= TAIL {
        tail.clear();
        tail.extend_from_slice(&given[given.len() - TAIL..])?;
        return Ok(());
    }
    tail.extend_from_slice(given)?;
    if tail.len() > TAIL {
        tail.rotate_left(tail.len() - TAIL);
        tail.truncate(TAIL);
    }
    Ok(())
}

impl OpenJournal {
    /// Looks whether the path still leads to this file, and whether it still has what was read.
    fn check<R: Files<File = File>>(&self, rt: &R) -> Result<(), Why> {
        match fs::metadata(rt, self.path.as_str()) {
            Ok(seen) if is_same_file(&seen, &self.opened) => {}
            Ok(_) => return Err(Why::refusal("was replaced by another file")),
            Err(e) => return Err(Why::system("is no longer there", e)),
        }
        if metadata_of(&self.file)?.len() < self.given {
            return Err(Why::refusal("is shorter than what was read of it"));
        }
        self.check_tail()
    }

    /// Compares the last bytes that were read with those at their place.
    fn check_tail(&self) -> Result<(), Why> {
        let mut there = [0; TAIL];
        let count = self.tail.len().min(TAIL);
        let place = self.given.saturating_sub(count as u64);
        if let Err(e) = self.file.read_exact_at(&mut there[..count], place) {
            return Err(Why::system("cannot be read", e));
        }
        if self.tail.as_slice() == &there[..count] {
            Ok(())
        } else {
            Err(Why::refusal("has other text where it was read"))
        }
    }

    /// Reads on.
    fn read_on<R: Files<File = File>>(&mut self, rt: &R, buffer: &mut [u8]) -> Result<usize, Why>
        ensures { IfOk result (λ n. n ≤ length buffer.new) }
    {
        if self.at_end {
            self.check(rt)?;
        }
        let count = match read_again(&mut self.file, buffer) {
            Ok(count) => count,
            Err(e) => return Err(Why::system("cannot be read", e)),
        };
        self.at_end = count == 0;
        self.given = self.given.saturating_add(count as u64);
        match keep_tail(&mut self.tail, &buffer[..count]) {
            Ok(()) => Ok(count),
            Err(OutOfMemory) => Err(Why::refusal("cannot be read: out of memory")),
        }
    }
}

impl<R: Files<File = File>> Source for JournalFile<R> {
    ghost faults = { λ s. s.1 };

    ghost left = { λ _. None };

    fn read(&mut self, buffer: &mut [u8]) -> Result<usize, Failed>
        ensures unusable { self.old.0 ≡ false → IsErr result }
        ensures usable { OnOk result (self.new.0 ≡ true) }
        ensures lasting { OnErr result (self.new.0 ≡ false) }

        ensures within { IfOk result (λ n. n ≤ length buffer.new) }
        ensures kept { OnOk result (self.new.1 ≡ self.old.1) }
        ensures counted { self.old.1 ≤ self.new.1 }
        ensures failed { OnErr result (Rose self.old.1 self.new.1) }
        ensures bytes { IfOk result (λ n. 0 < n → GivesFront (take n buffer.new) None None) }
        ensures end { IfOk result (λ n. n ≡ 0 → 0 < length buffer.new → AnswersEnd None None) }
    {
        if let Some(file) = &mut self.file {
            if buffer.is_empty() {
                return Ok(0);
            }
            match file.read_on(&self.rt, buffer) {
                Ok(count) => return Ok(count),
                Err(why) => self.why = Some(why),
            }
        }
        self.file = None;
        self.faults = self.faults.saturating_add(1);
        Err(Failed)
    }
}
