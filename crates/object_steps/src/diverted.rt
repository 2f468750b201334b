//! A system on which something happens where one path is opened: it leads to a file of the system's own, which takes a
//! write and cannot be flushed, or takes none, as on a full disk; or a folder comes to the kept path, so that nothing can
//! be renamed to it. So it is seen what a keeper has flushed, and what it leaves.
use crate::keepers::FORM;
use crate::outcome::Outcome;
use crate::words::cut;
use real_objects::FileKeeper;
use sb_outside::{KeepFault, Keeper};
use std::alloc::Allocator;
use std::fs::{File, Files, Metadata, OpenOptions};
use std::io::{self, ErrorKind};

/// The name of this thread, as the system has it. A write changes no other thing, and nobody can change its mode.
const NEVER_FLUSHED: &str = "/proc/self/comm";

/// A file that takes no write: its disk is full.
const FULL: &str = "/dev/full";

/// What happens where the path is opened.
#[derive(Clone, Copy)]
enum Way {
    Unflushed,
    Full,
    Occupied,
}

#[derive(Drop)]
struct Diverted<'a> {
    rt: &'a HostRuntime,
    from: &'a str,
    kept: &'a str,
    way: Way,
}

impl Diverted<'_> {
    /// Opens a file of the system's own in the place of one that is asked for.
    fn open_own(&self, how: &OpenOptions, own: &str) -> io::Result<File> {
        let mut options = OpenOptions::new();
        options.read(how.asks_read()).write(how.asks_write());
        self.rt.open_file(&options, own)
    }

    /// Opens a file of a full disk. The file that is made stays where it is asked for.
    fn open_full(&self, how: &OpenOptions, path: &str) -> io::Result<File> {
        let _ = self.rt.open_file(how, path)?;
        self.open_own(how, FULL)
    }

    /// Opens the file that is asked for, once a folder has come to the kept path.
    fn open_beside_folder(&self, how: &OpenOptions, path: &str) -> io::Result<File> {
        self.rt.create_dir(self.kept)?;
        self.rt.open_file(how, path)
    }
}

fn no_call<T>() -> io::Result<T> {
    Err(io::Error::from(ErrorKind::Unsupported))
}

impl Files for Diverted<'_> {
    type File = File;

    type Dir = <HostRuntime as Files>::Dir;

    fn open_file(&self, how: &OpenOptions, path: &str) -> io::Result<File> {
        if path != self.from {
            return self.rt.open_file(how, path);
        }
        match self.way {
            Way::Unflushed => self.open_own(how, NEVER_FLUSHED),
            Way::Full => self.open_full(how, path),
            Way::Occupied => self.open_beside_folder(how, path),
        }
    }

    fn open_dir(&self, _path: &str) -> io::Result<Self::Dir> {
        no_call()
    }

    fn metadata(&self, path: &str) -> io::Result<Metadata> {
        self.rt.metadata(path)
    }

    fn symlink_metadata(&self, path: &str) -> io::Result<Metadata> {
        self.rt.symlink_metadata(path)
    }

    fn copy(&self, _from: &str, _to: &str) -> io::Result<u64> {
        no_call()
    }

    fn rename(&self, from: &str, to: &str) -> io::Result<()> {
        self.rt.rename(from, to)
    }

    fn remove_file(&self, path: &str) -> io::Result<()> {
        self.rt.remove_file(path)
    }

    fn create_dir(&self, _path: &str) -> io::Result<()> {
        no_call()
    }

    fn remove_dir(&self, _path: &str) -> io::Result<()> {
        no_call()
    }

    fn remove_dir_all<B: Allocator>(&self, _alloc: B, _path: &str) -> io::Result<()> {
        no_call()
    }
}

/// Keeps a text at a path, where another path cannot be flushed.
pub(crate) fn unflushed<'a>(rt: &'a HostRuntime, line: &'a str) -> Outcome {
    keep(rt, Way::Unflushed, line)
}

/// Keeps a text at a path, where the disk of another path is full.
pub(crate) fn full<'a>(rt: &'a HostRuntime, line: &'a str) -> Outcome {
    keep(rt, Way::Full, line)
}

/// Keeps a text at a path, to which a folder comes where another path is opened.
pub(crate) fn occupied<'a>(rt: &'a HostRuntime, line: &'a str) -> Outcome {
    keep(rt, Way::Occupied, line)
}

fn keep<'a>(rt: &'a HostRuntime, way: Way, line: &'a str) -> Outcome {
    let (from, rest) = cut(line);
    let (kept, text) = cut(rest);
    let system = Diverted {
        rt,
        from,
        kept,
        way,
    };
    let Ok(mut keeper) = FileKeeper::new(system, rt.alloc(), kept, FORM, true) else {
        return Outcome::OutOfMemory;
    };
    match keeper.replace(text.as_bytes()) {
        Ok(()) => Outcome::Done,
        Err(KeepFault::OutOfMemory) => Outcome::OutOfMemory,
        Err(KeepFault::Failed) => Outcome::Cannot(keeper.why()),
    }
}
