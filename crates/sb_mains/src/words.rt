use std::alloc::Global;
use std::io::ErrorKind;
use std::{env, io};

/// The words of the command line, the first of them this program's name, whatever it was called by. A word that is not UTF-8 is
/// none that a program takes: with its name alone a program tells its usage.
pub fn words_of(rt: &HostRuntime, alloc: Global, program: &str) -> io::Result<Vec<String>> {
    let mut words = Vec::new(alloc);
    words.push(String::from_str(alloc, program)?)?;
    let given = match env::args(rt) {
        Ok(given) => given,
        Err(fault) if fault.kind() == ErrorKind::InvalidData => return Ok(words),
        Err(fault) => return Err(fault),
    };
    for word in given.skip(1) {
        words.push(word)?;
    }
    Ok(words)
}
