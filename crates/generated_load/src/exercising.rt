ghost use Rattle.std.specs.Prelude.{◌≡◌, ◌++◌, true, false, IfOk, OnOk, IsErrOf};
ghost use Rattle.sha2.specs.Sha256.{sha256};
ghost use Rattle.sb_model.specs.History.{declares};
ghost use Rattle.sb_model.specs.Prefixes.{concatenation};
ghost use Rattle.delta_server.specs.Tokens.{server_naming};
ghost use Rattle.generated_load.specs.Exercise.{HasRoom, additions_in, checksum_text, count_text, counts_text, exercise_line, line_of_history, load_text, newest_set, removals_in, update_with};
ghost use Rattle.generated_load.specs.Generated.{generated_list};

use crate::ExerciseFault;
use crate::asking::answer_to;
use crate::changes::LIST;
use crate::counts::{additions_in, removals_in};
use crate::loading::load;
use delta_server::token_of;
use hash_prefixes::append_hex;
use list_versions::History;
use sb_model::{Bytes, OutOfMemory, targets_are_the_greatest};
use std::alloc::Global;

// How many entries an update has.
#[derive(Clone, Copy, Debug)]
struct Counts {
    removals: u64,
    additions: u64,
}

// Appends which load it is.
#[tactic(auto, unfolding(crate::specs::Exercise::load_text))]
fn push_load(page: &mut Bytes, count: u32, seed: u64) -> Result<(), OutOfMemory>
    ensures { OnOk result (page.new ≡ page.old ++ load_text count seed) }
{
    page.append(b"exercise ")?;
    page.append_decimal(u64::from(count))?;
    page.push(b' ')?;
    page.append_decimal(seed)?;
    page.append(b": ")
}

// Appends how many there are of something.
fn push_count(page: &mut Bytes, count: u64, what: &[u8]) -> Result<(), OutOfMemory>
    ensures { OnOk result (page.new ≡ page.old ++ count_text count what.now) }
{
    page.append_decimal(count)?;
    page.append(what)
}

// Appends how many entries there are.
#[tactic(auto, unfolding(crate::specs::Exercise::counts_text))]
fn push_counts(page: &mut Bytes, entries: u64, counts: Counts) -> Result<(), OutOfMemory>
    ensures { OnOk result (page.new ≡ page.old ++ counts_text entries counts.removals counts.additions) }
{
    push_count(page, entries, b" entries, ")?;
    push_count(page, counts.removals, b" removals, ")?;
    push_count(page, counts.additions, b" additions, ")
}

// Appends a checksum, and the end of the line.
#[tactic(auto, unfolding(crate::specs::Exercise::checksum_text))]
fn push_checksum(page: &mut Bytes, checksum: &[u8; 32]) -> Result<(), OutOfMemory>
    ensures { OnOk result (page.new ≡ page.old ++ checksum_text checksum.now) }
{
    page.append(b"checksum ")?;
    append_hex(page, checksum)?;
    page.push(b'\n')
}

// The checksum of the answer to one who has nothing.
fn first_checksum(alloc: Global, history: &History) -> Result<[u8; 32], OutOfMemory>
    requires { declares history.now.versions generated_list ≡ true }
    ensures { IfOk result (λ checksum. checksum ≡ sha256 (concatenation (newest_set history.now.versions))) }
{
    targets_are_the_greatest();
    let response = answer_to(alloc, history, &[])?;
    Ok(response.items.at(0).checksum)
}

// The entries of the answer to one who has the version after so many changes.
fn second_counts(alloc: Global, history: &History, version: u32) -> Result<Counts, OutOfMemory>
    requires { declares history.now.versions generated_list ≡ true }
    ensures removals { IfOk result (λ counts. counts.removals ≡ removals_in
        (update_with history.now.versions (server_naming history.now.versions generated_list version))) }
    ensures additions { IfOk result (λ counts. counts.additions ≡ additions_in
        (update_with history.now.versions (server_naming history.now.versions generated_list version))) }
{
    let token = token_of(history, LIST, u64::from(version));
    let response = answer_to(alloc, history, &token)?;
    let update = response.items.at(0);
    Ok(Counts {
        removals: removals_in(update.removals.as_slice())?,
        additions: additions_in(update.additions.as_slice())?,
    })
}

// The line of an exercise on a history.
fn line_of(alloc: Global, history: &History, count: u32, seed: u64) -> Result<Bytes, ExerciseFault>
    ensures line { IfOk result (λ line. line ≡ line_of_history history.now.versions count seed) }
    ensures past { IsErrOf result ExerciseFault.PastLimits → declares history.now.versions generated_list ≡ false }
{
    let Some(newest) = history.newest(LIST) else {
        return Err(ExerciseFault::PastLimits);
    };
    let checksum = first_checksum(alloc, history)?;
    let counts = second_counts(alloc, history, count / 2)?;
    let mut line = Bytes::new(alloc);
    push_load(&mut line, count, seed)?;
    push_counts(&mut line, u64::from(newest.set.len()), counts)?;
    push_checksum(&mut line, &checksum)?;
    Ok(line)
}

/// The line of an exercise: the journal of so many changes of a seed is made in memory and loaded, and its list is asked for
/// twice, by one who has nothing and by one who has the version in the middle.
///
/// # Errors
///
/// `PastLimits` only where the journal passes a limit: where there are more than 65,536 changes, or more than 16 hashes begin
/// with the same four bytes. No two of the 65,536 hosts that there are have such hashes, and the other limits are wide
/// enough.
#[tactic(auto, unfolding(crate::specs::Exercise::exercise_line))]
pub fn exercise(alloc: Global, count: u32, seed: u64) -> Result<Bytes, ExerciseFault>
    ensures line { IfOk result (λ line. HasRoom count seed → line ≡ exercise_line count seed) }
    ensures past { IsErrOf result ExerciseFault.PastLimits → ¬ (HasRoom count seed) }
{
    let history = load(alloc, count, seed)?;
    line_of(alloc, &history, count, seed)
}
