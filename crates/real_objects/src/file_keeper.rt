ghost use Rattle.std.specs.Prelude.{◌≡◌, ◌≢◌, ◌≤◌, ◌↔◌, None, true, false, length, take, IsTrue, IfOk, IsErrOf};
ghost use Rattle.sb_outside.specs.Outside.{Rose};

use crate::Why;
use crate::regular_files::{metadata_of, open_seen, seen_at};
use sb_model::{Bytes, OutOfMemory};
use sb_outside::{KeepFault, Keeper};
use std::alloc::Global;
use std::fs::{File, Files, OpenOptions, Permissions, TryLockError};
use std::io::{ErrorKind, Read, Write};
use std::marker::Model;
use std::os::unix::fs::{FileExt, OpenOptionsExt};
use std::path::Path;
use std::{fs, io};

/// The mode of a file that is made: it is for its owner alone.
const PRIVATE: u32 = 0o600;

/// What a kept file may be. A file that is longer, or begins otherwise, is none that a keeper made: it is not read, and
/// nothing takes its place.
#[derive(Clone, Copy, Debug)]
pub struct KeptForm {
    /// How many bytes it has at most.
    pub longest: u64,
    /// Its first bytes. A file with fewer may have a front of them.
    pub front: [u8; 4],
}

/// A keeper that keeps its text in a regular file, which other programs of its kind leave alone meanwhile. It writes a
/// second file beside the first, has both it and the folder flushed to the disk, and renames it over the first in
/// between. It keeps nothing where there is no file. Contracts see it as whether it can be used, and its count of faults.
#[derive(Drop)]
pub struct FileKeeper<R> {
    rt: R,
    file: Option<KeptFile>,
    faults: u64,
    why: Option<Why>,
}

/// Where the text is kept, where it is written first, what it may be, and the lock of who replaces it.
#[derive(Drop)]
struct KeptFile {
    path: String,
    beside: String,
    form: KeptForm,
    lock: Option<File>,
}

impl<R> Model for FileKeeper<R> {
    ghost use Rattle.std.specs.Prelude.{ℕ, Bool, is_some};

    ghost Value = { Bool × ℕ };

    ghost view = { λ s. (is_some s.file, s.faults) };
}

/// A path with an ending after it.
fn path_with(alloc: Global, path: &str, ending: &str) -> Result<String, OutOfMemory> {
    let mut text = String::from_str(alloc, path)?;
    text.push_str(ending)?;
    Ok(text)
}

impl<R: Files<File = File> + Drop> FileKeeper<R> {
    /// A keeper of the file at this path. The second file has the path with `.new` after it. One that is to replace the
    /// text holds the lock of the path with `.lock` after it, which is made where it is not there, until it is dropped;
    /// another may only load. It cannot be used where the path has a file that is none of the form, as a folder, a link
    /// or a device, or where another holds the lock.
    pub fn new(
        rt: R,
        alloc: Global,
        path: &str,
        form: KeptForm,
        replaces: bool,
    ) -> Result<Self, OutOfMemory>
        ensures { IfOk result (λ keeper. keeper.1 ≡ 0) }
    {
        let beside = path_with(alloc, path, ".new")?;
        let locked = path_with(alloc, path, ".lock")?;
        let path = String::from_str(alloc, path)?;
        Ok(
            match prepare(&rt, path.as_str(), locked.as_str(), form, replaces) {
                Ok(lock) => FileKeeper {
                    rt,
                    file: Some(KeptFile {
                        path,
                        beside,
                        form,
                        lock,
                    }),
                    faults: 0,
                    why: None,
                },
                Err(why) => FileKeeper {
                    rt,
                    file: None,
                    faults: 0,
                    why: Some(why),
                },
            },
        )
    }
}

impl<R: Drop> FileKeeper<R> {
    /// A keeper that has no path. Each call fails.
    pub fn unusable(rt: R) -> Self
        ensures { result ≡ (false, 0) }
    {
        FileKeeper {
            rt,
            file: None,
            faults: 0,
            why: None,
        }
    }

    /// How many calls failed.
    pub fn faults(&self) -> u64
        ensures { result ≡ self.now.1 }
    {
        self.faults
    }

    /// Why it cannot be used, or why the last call failed.
    pub fn why(&self) -> Option<Why> {
        self.why
    }
}

/// Looks at the file, and takes the lock where the text is to be replaced.
fn prepare<R: Files<File = File>>(
    rt: &R,
    path: &str,
    locked: &str,
    form: KeptForm,
    replaces: bool,
) -> Result<Option<File>, Why> {
    open_kept(rt, path, form)?;
    if !replaces {
        return Ok(None);
    }
    Ok(Some(lock_at(rt, locked)?))
}

/// The file of the lock, which is made where there is none.
fn lock_file<R: Files<File = File>>(rt: &R, path: &str) -> Result<File, Why> {
    let mut options = OpenOptions::new();
    options.read(true).write(true);
    if let Some(seen) = seen_at(rt, path)? {
        return open_seen(rt, path, &options, &seen);
    }
    match options.create_new(true).mode(PRIVATE).open(rt, path) {
        Ok(file) => Ok(file),
        Err(e) => Err(Why::system("cannot be made", e)),
    }
}

/// The lock at a path.
fn lock_at<R: Files<File = File>>(rt: &R, path: &str) -> Result<File, Why> {
    let file = match lock_file(rt, path) {
        Ok(file) => file,
        Err(why) => return Err(why.of("has a lock that ")),
    };
    match file.try_lock() {
        Ok(()) => Ok(file),
        Err(TryLockError::WouldBlock) => Err(Why::refusal("is held by another program")),
        Err(TryLockError::Error(e)) => Err(Why::system("cannot be locked", e)),
    }
}

/// Whether a text that begins with these bytes may be of a form.
fn is_front_of(bytes: &[u8], front: [u8; 4]) -> bool
    ensures { IsTrue result ↔ (take 4 bytes.now ≡ take (length bytes.now) front) }
{
    let count = bytes.len().min(4);
    bytes[..count] == front[..count]
}

/// The file at a path, which is of the form, or `None` where there is none.
fn open_kept<R: Files<File = File>>(
    rt: &R,
    path: &str,
    form: KeptForm,
) -> Result<Option<File>, Why> {
    let Some(seen) = seen_at(rt, path)? else {
        return Ok(None);
    };
    let file = open_seen(rt, path, OpenOptions::new().read(true), &seen)?;
    if seen.len() > form.longest {
        return Err(Why::refusal("is longer than one may be"));
    }
    let mut first = [0; 4];
    let count = seen.len().min(4) as usize;
    if let Err(e) = file.read_exact_at(&mut first[..count], 0) {
        return Err(Why::system("cannot be read", e));
    }
    if !is_front_of(&first[..count], form.front) {
        return Err(Why::refusal("does not begin as one"));
    }
    Ok(Some(file))
}

/// The bytes of the file, or `None` where there is none.
fn read_kept<R: Files<File = File>>(
    rt: &R,
    alloc: Global,
    kept: &KeptFile,
) -> Result<Option<Bytes>, Why> {
    let Some(file) = open_kept(rt, kept.path.as_str(), kept.form)? else {
        return Ok(None);
    };
    let mut bytes = Vec::new(alloc);
    let longest = kept.form.longest;
    if let Err(e) = file.take(longest.saturating_add(1)).read_to_end(&mut bytes) {
        return Err(Why::system("cannot be read", e));
    }
    if bytes.len() as u64 > longest {
        return Err(Why::refusal("is longer than one may be"));
    }
    Ok(Some(Bytes::from_vec(bytes)))
}

/// Makes the second file anew.
fn make_beside<R: Files<File = File>>(rt: &R, path: &str) -> Result<File, Why> {
    match fs::remove_file(rt, path) {
        Ok(()) => {}
        Err(e) if e.kind() == ErrorKind::NotFound => {}
        Err(e) => return Err(Why::system("has a second file that cannot be removed", e)),
    }
    let mut options = OpenOptions::new();
    match options
        .write(true)
        .create_new(true)
        .mode(PRIVATE)
        .open(rt, path)
    {
        Ok(file) => Ok(file),
        Err(e) => Err(Why::system("has a second file that cannot be made", e)),
    }
}

/// Writes the text into the second file, with the mode of the first, and has it flushed to the disk.
fn write_beside(mut file: File, mode: Option<Permissions>, text: &[u8]) -> io::Result<()> {
    if let Some(mode) = mode {
        file.set_permissions(mode)?;
    }
    file.write_all(text)?;
    file.sync_all()
}

/// Has the names of a file's folder flushed to the disk.
fn sync_folder<R: Files<File = File>>(rt: &R, path: &str) -> io::Result<()> {
    let folder = match Path::new(path).parent() {
        Some(parent) if !parent.as_str().is_empty() => parent,
        _ => Path::new("."),
    };
    File::open(rt, folder)?.sync_all()
}

/// Renames the second file over the first, and has the folder flushed.
fn put_over<R: Files<File = File>>(rt: &R, beside: &str, path: &str) -> io::Result<()> {
    fs::rename(rt, beside, path)?;
    sync_folder(rt, path)
}

/// The mode of the file that is replaced, or `None` where there is none.
fn mode_at<R: Files<File = File>>(rt: &R, kept: &KeptFile) -> Result<Option<Permissions>, Why> {
    match open_kept(rt, kept.path.as_str(), kept.form)? {
        Some(file) => Ok(Some(metadata_of(&file)?.permissions())),
        None => Ok(None),
    }
}

/// Writes the text into the second file, and puts it in the place of the first.
fn put_text<R: Files<File = File>>(
    rt: &R,
    kept: &KeptFile,
    beside: File,
    mode: Option<Permissions>,
    text: &[u8],
) -> Result<(), Why> {
    if let Err(e) = write_beside(beside, mode, text) {
        return Err(Why::system("cannot be written", e));
    }
    match put_over(rt, kept.beside.as_str(), kept.path.as_str()) {
        Ok(()) => Ok(()),
        Err(e) => Err(Why::system("cannot be replaced", e)),
    }
}

/// Replaces the file, if it is one of the form, by another with this text. If that fails, the second file is removed: its
/// bytes are not to stay on a disk that may be full.
fn replace_kept<R: Files<File = File>>(rt: &R, kept: &KeptFile, text: &[u8]) -> Result<(), Why> {
    if kept.lock.is_none() {
        return Err(Why::refusal("is not locked, so it is not replaced"));
    }
    let mode = mode_at(rt, kept)?;
    let beside = make_beside(rt, kept.beside.as_str())?;
    match put_text(rt, kept, beside, mode, text) {
        Ok(()) => Ok(()),
        Err(why) => {
            let _ = fs::remove_file(rt, kept.beside.as_str());
            Err(why)
        }
    }
}

impl<R: Files<File = File>> Keeper for FileKeeper<R> {
    ghost faults = { λ s. s.1 };

    ghost kept = { λ _. None };

    ghost handed = { λ _. None };

    fn load(&mut self, alloc: Global) -> Result<Option<Bytes>, KeepFault>
        ensures unusable { self.old.0 ≡ false → IsErrOf result KeepFault.Failed }
        ensures usable { self.new.0 ≡ self.old.0 }

        ensures kept_count { result ≢ Err KeepFault.Failed → self.new.1 ≡ self.old.1 }
        ensures counted { self.old.1 ≤ self.new.1 }
        ensures failed { IsErrOf result KeepFault.Failed → Rose self.old.1 self.new.1 }
    {
        if let Some(kept) = &self.file {
            match read_kept(&self.rt, alloc, kept) {
                Ok(text) => return Ok(text),
                Err(why) if why.is_memory() => return Err(KeepFault::OutOfMemory),
                Err(why) => self.why = Some(why),
            }
        }
        self.faults = self.faults.saturating_add(1);
        Err(KeepFault::Failed)
    }

    fn replace(&mut self, text: &[u8]) -> Result<(), KeepFault>
        ensures unusable { self.old.0 ≡ false → IsErrOf result KeepFault.Failed }
        ensures usable { self.new.0 ≡ self.old.0 }
        ensures no_refusal { result ≢ Err KeepFault.OutOfMemory }

        ensures kept_count { result ≢ Err KeepFault.Failed → self.new.1 ≡ self.old.1 }
        ensures counted { self.old.1 ≤ self.new.1 }
        ensures failed { IsErrOf result KeepFault.Failed → Rose self.old.1 self.new.1 }
    {
        if let Some(kept) = &self.file {
            match replace_kept(&self.rt, kept, text) {
                Ok(()) => return Ok(()),
                Err(why) => self.why = Some(why),
            }
        }
        self.faults = self.faults.saturating_add(1);
        Err(KeepFault::Failed)
    }
}
