use std::fs::{File, Files, OpenOptions};
use std::os::fd::{AsRawFd, IntoRawFd};

/// Opens `/dev/null` the wrong way round: what is read is open for writing alone, and what is written for reading.
fn open_null<R: Files<File = File>>(rt: &R, is_read: bool) -> Option<File> {
    let mut options = OpenOptions::new();
    if is_read {
        options.write(true);
    } else {
        options.read(true);
    }
    options.open(rt, "/dev/null").ok()
}

/// Takes those of the descriptors 0, 1 and 2 that are closed, so that no file and no socket comes to be standard input,
/// output or error. Each read and write of what it takes fails. A program calls it first.
pub fn hold_descriptors<R: Files<File = File>>(rt: &R) {
    for number in 0..3 {
        // The system gives the lowest number that is free.
        if let Some(file) = open_null(rt, number == 0)
            && file.as_raw_fd() == number
        {
            file.into_raw_fd();
        }
    }
}
