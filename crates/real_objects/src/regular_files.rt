use crate::Why;
use std::fs;
use std::fs::{File, Files, Metadata, OpenFile, OpenOptions};
use std::io::ErrorKind;
use std::os::unix::fs::MetadataExt;

/// Whether two looks saw one file: its device and its number there.
pub(crate) fn is_same_file(one: &Metadata, other: &Metadata) -> bool {
    one.dev() == other.dev() && one.ino() == other.ino()
}

/// What stands at a path, links not followed, or `None` where nothing does.
pub(crate) fn seen_at<R: Files>(rt: &R, path: &str) -> Result<Option<Metadata>, Why> {
    match fs::symlink_metadata(rt, path) {
        Ok(seen) => Ok(Some(seen)),
        Err(e) if e.kind() == ErrorKind::NotFound => Ok(None),
        Err(e) => Err(Why::system("cannot be looked at", e)),
    }
}

/// Opens the regular file that was seen at a path. A file that is no regular one is not opened, and one that has
/// taken its place since is refused.
pub(crate) fn open_seen<R: Files<File = File>>(
    rt: &R,
    path: &str,
    how: &OpenOptions,
    seen: &Metadata,
) -> Result<File, Why> {
    if !seen.is_file() {
        return Err(Why::refusal("is no regular file"));
    }
    let file = match how.open(rt, path) {
        Ok(file) => file,
        Err(e) => return Err(Why::system("cannot be opened", e)),
    };
    if is_same_file(seen, &metadata_of(&file)?) {
        Ok(file)
    } else {
        Err(Why::refusal("was replaced while it was opened"))
    }
}

/// What the system says of an open file.
pub(crate) fn metadata_of(file: &File) -> Result<Metadata, Why> {
    match OpenFile::metadata(file) {
        Ok(metadata) => Ok(metadata),
        Err(e) => Err(Why::system("cannot be looked at", e)),
    }
}
