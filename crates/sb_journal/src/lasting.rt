ghost use Rattle.std.specs.Prelude.{◌≡◌, ℕ, List, [], ◌∷◌, ◌++◌, cond, true, if◌then◌else◌, IfOk, OnOk};
ghost use Rattle.std.specs.List.{list_any};
ghost use Rattle.std.specs.Str.{bytes_eq};
ghost use Rattle.sb_journal.specs.Records.{hash_in, last_lines};

use crate::HashLine;
use hash_prefixes::HashKey;
use sb_model::OutOfMemory;
use std::alloc::Global;
use std::collections::HashSet;

/// The hash of a line.
fn hash_in(line: &HashLine) -> [u8; 32]
    ensures { result ≡ hash_in line.now }
{
    match line {
        HashLine::Add(added) => added.hash,
        HashLine::Remove(hash) => *hash,
    }
}

/// Keeps a line if its hash was not seen, and marks the hash as seen.
fn keep_if_new(
    seen: &mut HashSet<HashKey>,
    kept: &mut Vec<HashLine>,
    line: HashLine,
) -> Result<(), OutOfMemory>
    ensures seen { OnOk result ((hash : List ℕ) → list_any (bytes_eq hash) seen.new.keys
        ≡ cond (bytes_eq (hash_in line) hash) true (list_any (bytes_eq hash) seen.old.keys)) }
    ensures kept { OnOk result (kept.new.items
        ≡ (if list_any (bytes_eq (hash_in line)) seen.old.keys then kept.old.items else kept.old.items ++ line ∷ [])) }
{
    let key = HashKey {
        bytes: hash_in(&line),
    };
    if seen.insert(key)? {
        kept.push(line)?;
    }
    Ok(())
}

/// The last of several lines of one hash, at its place.
pub fn last_lines(alloc: Global, mut lines: Vec<HashLine>) -> Result<Vec<HashLine>, OutOfMemory>
    ensures { IfOk result (λ kept. kept.items ≡ last_lines lines.items) }
{
    let mut seen = HashSet::new(alloc);
    let mut kept = Vec::new(alloc);
    while let Some(line) = lines.pop() {
        keep_if_new(&mut seen, &mut kept, line)?;
    }
    kept.reverse();
    Ok(kept)
}
