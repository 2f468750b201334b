ghost use Rattle.std.specs.Prelude.{◌≡◌, [], ◌∷◌, ◌++◌, map, IfOk, OnOk};
ghost use Rattle.sb_model.specs.Difference.{added_members, has_member};
ghost use Rattle.sb_model.specs.Prefixes.{IsRising, set_of};
ghost use Rattle.sb_journal.specs.declared.hash_line.HashLine.TheVariants.{Remove};
ghost use Rattle.sb_journal.specs.Records.{add_of, leading_lines};

use crate::HashLine;
use prefix_set::sets_go_by_members;
use sb_model::{Added, OutOfMemory};
use std::alloc::Global;

/// Puts full hashes into rising order, each once.
pub fn put_in_order(hashes: &mut Vec<[u8; 32]>)
    ensures { hashes.new.items ≡ set_of hashes.old.items }
{
    sets_go_by_members();
    hashes.sort_unstable();
    hashes.dedup();
}

/// Whether a rising set has a hash.
fn has(set: &[[u8; 32]], hash: &[u8; 32]) -> bool
    requires { IsRising set.now }
    ensures { result ≡ has_member set.now hash.now }
{
    set.binary_search(hash).is_ok()
}

/// Appends a line that takes a hash out, unless a rising set has the hash.
fn push_remove(
    lines: &mut Vec<HashLine>,
    wanted: &[[u8; 32]],
    hash: &[u8; 32],
) -> Result<(), OutOfMemory>
    requires { IsRising wanted.now }
    ensures { OnOk result (lines.new.items ≡ lines.old.items ++ map Remove (added_members wanted.now (hash.now ∷ []))) }
{
    if !has(wanted, hash) {
        lines.push(HashLine::Remove(*hash))?;
    }
    Ok(())
}

/// Appends a line that puts a hash in with this size, unless a rising set has the hash.
fn push_add(
    lines: &mut Vec<HashLine>,
    size: u8,
    held: &[[u8; 32]],
    hash: &[u8; 32],
) -> Result<(), OutOfMemory>
    requires { IsRising held.now }
    ensures { OnOk result (lines.new.items ≡ lines.old.items ++ map (add_of size) (added_members held.now (hash.now ∷ []))) }
{
    if !has(held, hash) {
        lines.push(HashLine::Add(Added { hash: *hash, size }))?;
    }
    Ok(())
}

/// Appends a line that takes out, for each hash that is held and not wanted.
fn push_removes(
    lines: &mut Vec<HashLine>,
    held: &[[u8; 32]],
    wanted: &[[u8; 32]],
) -> Result<(), OutOfMemory>
    requires { IsRising wanted.now }
    ensures { OnOk result (lines.new.items ≡ lines.old.items ++ map Remove (added_members wanted.now held.now)) }
{
    for hash in held {
        push_remove(lines, wanted, hash)?;
    }
    Ok(())
}

/// Appends a line that puts in with this size, for each hash that is wanted and not held.
fn push_adds(
    lines: &mut Vec<HashLine>,
    size: u8,
    held: &[[u8; 32]],
    wanted: &[[u8; 32]],
) -> Result<(), OutOfMemory>
    requires { IsRising held.now }
    ensures { OnOk result (lines.new.items ≡ lines.old.items ++ map (add_of size) (added_members held.now wanted.now)) }
{
    for hash in wanted {
        push_add(lines, size, held, hash)?;
    }
    Ok(())
}

/// What leads from the hashes that are held to those that are wanted, both rising: what goes, and then what comes, with
/// this size.
#[tactic(auto, unfolding(crate::specs::Records::leading_lines))]
pub fn leading_lines(
    alloc: Global,
    size: u8,
    held: &[[u8; 32]],
    wanted: &[[u8; 32]],
) -> Result<Vec<HashLine>, OutOfMemory>
    requires held { IsRising held.now }
    requires wanted { IsRising wanted.now }
    ensures { IfOk result (λ lines. lines.items ≡ leading_lines size held.now wanted.now) }
{
    let mut lines = Vec::new(alloc);
    push_removes(&mut lines, held, wanted)?;
    push_adds(&mut lines, size, held, wanted)?;
    Ok(lines)
}
