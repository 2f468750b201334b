//! Steps with files, as the steps with objects make them and look at them.
use crate::outcome::{Outcome, done, text};
use crate::words::{cut, number_of, text_of};
use sb_model::{Bytes, OutOfMemory};
use std::fs::{self, File, OpenOptions, Permissions};
use std::io::{self, Write};
use std::os::unix::fs::{MetadataExt, PermissionsExt, symlink};
use std::os::unix::net::UnixListener;
use std::thread;
use std::time::Duration;

pub(crate) fn step(rt: &HostRuntime, line: &str) -> Outcome {
    let (word, rest) = cut(line);
    let (path, more) = cut(rest);
    match word.as_bytes() {
        b"write" => write(rt, path, more),
        b"append" => append(rt, path, more),
        b"cut" => done(cut_to(rt, path, number_of(more))),
        b"link-to" => done(symlink(rt, path, more)),
        b"mode" => done(set_mode(rt, path, more)),
        b"wait" => wait(rt, path),
        _ => look(rt, word, path, more),
    }
}

fn look(rt: &HostRuntime, word: &str, path: &str, more: &str) -> Outcome {
    match word.as_bytes() {
        b"rename" => done(fs::rename(rt, path, more)),
        b"remove" => done(fs::remove_file(rt, path)),
        b"folder" => done(fs::create_dir(rt, path)),
        b"remove-folder" => done(fs::remove_dir(rt, path)),
        b"socket" => socket(rt, path),
        b"show" => show(rt, path),
        b"mode-of" => mode_of(rt, path),
        b"list" => list(rt, path),
        _ => Outcome::NoStep,
    }
}

fn wait(rt: &HostRuntime, millis: &str) -> Outcome {
    thread::sleep(rt, Duration::from_millis(number_of(millis)));
    Outcome::Done
}

fn write(rt: &HostRuntime, path: &str, more: &str) -> Outcome {
    match text_of(rt.alloc(), more) {
        Ok(bytes) => done(fs::write(rt, path, bytes.as_slice())),
        Err(OutOfMemory) => Outcome::OutOfMemory,
    }
}

fn append(rt: &HostRuntime, path: &str, more: &str) -> Outcome {
    match text_of(rt.alloc(), more) {
        Ok(bytes) => done(append_to(rt, path, bytes.as_slice())),
        Err(OutOfMemory) => Outcome::OutOfMemory,
    }
}

fn append_to(rt: &HostRuntime, path: &str, bytes: &[u8]) -> io::Result<()> {
    match OpenOptions::new().append(true).open(rt, path) {
        Ok(mut file) => file.write_all(bytes),
        Err(e) => Err(e),
    }
}

fn cut_to(rt: &HostRuntime, path: &str, size: u64) -> io::Result<()> {
    match OpenOptions::new().write(true).open(rt, path) {
        Ok(file) => file.set_len(size),
        Err(e) => Err(e),
    }
}

/// Sets the mode of a file. Its digits are octal.
fn set_mode(rt: &HostRuntime, path: &str, digits: &str) -> io::Result<()> {
    let mut mode: u32 = 0;
    for digit in digits.as_bytes() {
        mode = mode.wrapping_mul(8).wrapping_add(u32::from(*digit & 7));
    }
    fs::set_permissions(rt, path, Permissions::from_mode(mode & 0o7777))
}

/// Makes a socket, which is no regular file.
fn socket(rt: &HostRuntime, path: &str) -> Outcome {
    match UnixListener::bind(rt, path) {
        Ok(_listener) => Outcome::Done,
        Err(e) => Outcome::Refused(e),
    }
}

fn show(rt: &HostRuntime, path: &str) -> Outcome {
    match fs::read(rt, path) {
        Ok(bytes) => Outcome::Text(Bytes::from_vec(bytes)),
        Err(e) => Outcome::Refused(e),
    }
}

fn mode_of(rt: &HostRuntime, path: &str) -> Outcome {
    match fs::symlink_metadata(rt, path) {
        Ok(seen) => text(mode_text(rt, seen.mode())),
        Err(e) => Outcome::Refused(e),
    }
}

fn mode_text(rt: &HostRuntime, mode: u32) -> Result<Bytes, OutOfMemory> {
    let mode = mode & 0o7777;
    let digits = format!(in rt.alloc(); "{mode:o}")?;
    Bytes::from_slice(rt.alloc(), digits.as_str().as_bytes())
}

/// The names that stand in a folder, in their order, with a space behind each.
fn list(rt: &HostRuntime, path: &str) -> Outcome {
    match names_in(rt, path) {
        Ok(mut names) => {
            names.sort_unstable();
            text(joined(rt, names.as_slice()))
        }
        Err(e) => Outcome::Refused(e),
    }
}

fn names_in(rt: &HostRuntime, path: &str) -> io::Result<Vec<String>> {
    let mut names = Vec::new(rt.alloc());
    for entry in fs::read_dir(rt, path)? {
        let name = String::from_str(rt.alloc(), entry?.file_name())?;
        names.push(name)?;
    }
    Ok(names)
}

fn joined(rt: &HostRuntime, names: &[String]) -> Result<Bytes, OutOfMemory> {
    let mut all = Bytes::new(rt.alloc());
    for name in names {
        if !all.is_empty() {
            all.push(b' ')?;
        }
        all.append(name.as_str().as_bytes())?;
    }
    Ok(all)
}
