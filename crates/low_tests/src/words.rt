use sb_model::OutOfMemory;
use std::alloc::Global;

/// The words of a command line, which single spaces part. The empty line has none.
pub fn words(alloc: Global, line: &str) -> Result<Vec<String>, OutOfMemory> {
    let mut words = Vec::new(alloc);
    if line.is_empty() {
        return Ok(words);
    }
    for word in line.split(' ') {
        words.push(String::from_str(alloc, word)?)?;
    }
    Ok(words)
}
