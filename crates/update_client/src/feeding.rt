ghost use Rattle.std.specs.Prelude.{◌≡◌, ◌<◌, ◌%◌, ◌++◌, ℕ, [], None, true, false, length, map, All, Ok, IfOk, IfErr, OnOk, IsOkAnd};
ghost use Rattle.std.specs.Int.{w32, to_le_bytes};
ghost use Rattle.rice_coding.specs.Decoding.{outcome_of};
ghost use Rattle.prefix_set.specs.Pieces.{pieces_of};
ghost use Rattle.update_messages.specs.Messages.{IsAddition};
ghost use Rattle.update_client.specs.Step.{prefixes_of, places_of, joined, meaning_of};
ghost use Rattle.update_client.specs.Feeding.{Adds, Removes, IsReadFaultOf, meant_by};

use prefix_set::Edit;
use rice_coding::{RiceFault, RiceReader};
use sb_model::Bytes;
use std::alloc::Global;
use update_messages::{Additions, ListUpdate, Removals};

/// The most values of a Rice record.
const MOST_VALUES: u32 = 1_048_576;

/// How many numbers are gathered at most before they are added.
const GATHERED: usize = 4096;

// Gathers the bytes of numbers, the lowest first. Answers whether no number is left.
fn gather(reader: &mut RiceReader, block: &mut Bytes) -> Result<bool, RiceFault>
    requires { length block.old % 4 ≡ 0 }
    ensures whole { OnOk result (length block.new % 4 ≡ 0) }
    ensures numbers { OnOk result (pieces_of 4 block.new ++ map (to_le_bytes w32) reader.new.values
        ≡ pieces_of 4 block.old ++ map (to_le_bytes w32) reader.old.values) }
    ensures kept { OnOk result (reader.new.fault ≡ reader.old.fault) }
    ensures fewer { IfOk result (λ ended.
        ended ≡ false → length reader.new.values < length reader.old.values) }
    ensures ended { IfOk result (λ ended.
        ended ≡ true → (reader.new.values ≡ []) × (reader.old.fault ≡ None)) }
    ensures fault { IfErr result (IsReadFaultOf (outcome_of reader.old.values reader.old.fault)) }
{
    for _gathered in 0..GATHERED {
        let Some(number) = reader.next()? else {
            return Ok(true);
        };
        block.append(&number.to_le_bytes())?;
    }
    Ok(false)
}

// Adds the prefixes of the numbers that a reader gives.
fn add_numbers(edit: &mut Edit, reader: RiceReader, block: &mut Bytes) -> Result<(), RiceFault>
    ensures ok { OnOk result (IsOkAnd (outcome_of reader.entry.values reader.entry.fault)
        (λ numbers. Adds edit.old edit.new (map (to_le_bytes w32) numbers))) }
    ensures fault { IfErr result (IsReadFaultOf (outcome_of reader.entry.values reader.entry.fault)) }
{
    let mut reader = reader;
    loop {
        block.clear();
        let ended = gather(&mut reader, block)?;
        edit.add_each(4, block.as_slice())?;
        if ended {
            return Ok(());
        }
    }
}

// Removes the members at the places that a reader gives.
fn remove_numbers(edit: &mut Edit, reader: RiceReader) -> Result<(), RiceFault>
    ensures ok { OnOk result
        (IsOkAnd (outcome_of reader.entry.values reader.entry.fault) (Removes edit.old edit.new)) }
    ensures fault { IfErr result (IsReadFaultOf (outcome_of reader.entry.values reader.entry.fault)) }
{
    let mut reader = reader;
    while let Some(place) = reader.next()? {
        edit.remove(place)?;
    }
    Ok(())
}

// Adds the prefixes of one set.
fn add_set(edit: &mut Edit, set: &Additions, block: &mut Bytes) -> Result<(), RiceFault>
    requires { IsAddition set.now }
    ensures ok { OnOk result (IsOkAnd (prefixes_of set.now) (Adds edit.old edit.new)) }
    ensures fault { IfErr result (IsReadFaultOf (prefixes_of set.now)) }
{
    match set {
        Additions::Raw { size, bytes } => Ok(edit.add_each(*size, bytes.as_slice())?),
        Additions::Rice(record) => {
            add_numbers(edit, RiceReader::start(record, MOST_VALUES)?, block)
        }
    }
}

// Removes the members at the places of one set.
fn remove_set(edit: &mut Edit, set: &Removals) -> Result<(), RiceFault>
    ensures ok { OnOk result (IsOkAnd (places_of set.now) (Removes edit.old edit.new)) }
    ensures fault { IfErr result (IsReadFaultOf (places_of set.now)) }
{
    match set {
        Removals::Raw(indices) => Ok(edit.remove_each(indices.as_slice())?),
        Removals::Rice(record) => remove_numbers(edit, RiceReader::start(record, MOST_VALUES)?),
    }
}

// Adds the prefixes of several sets.
fn add_sets(edit: &mut Edit, sets: &[Additions], block: &mut Bytes) -> Result<(), RiceFault>
    requires { All IsAddition sets.now }
    ensures ok { OnOk result (IsOkAnd (joined prefixes_of sets.now) (Adds edit.old edit.new)) }
    ensures fault { IfErr result (IsReadFaultOf (joined prefixes_of sets.now)) }
{
    for set in sets {
        add_set(edit, set, block)?;
    }
    Ok(())
}

// Removes the members at the places of several sets.
fn remove_sets(edit: &mut Edit, sets: &[Removals]) -> Result<(), RiceFault>
    ensures ok { OnOk result (IsOkAnd (joined places_of sets.now) (Removes edit.old edit.new)) }
    ensures fault { IfErr result (IsReadFaultOf (joined places_of sets.now)) }
{
    for set in sets {
        remove_set(edit, set)?;
    }
    Ok(())
}

/// What an update says, as an edit. The removals of a full update are not looked at.
pub(crate) fn edit_of(alloc: Global, update: &ListUpdate) -> Result<Edit, RiceFault>
    ensures ok { IfOk result (λ edit. meaning_of update.now ≡ Ok (meant_by update.now edit)) }
    ensures fault { IfErr result (IsReadFaultOf (meaning_of update.now)) }
{
    let mut edit = Edit::new(alloc);
    let mut block = Bytes::new(alloc);
    add_sets(&mut edit, update.additions.as_slice(), &mut block)?;
    if !update.full {
        remove_sets(&mut edit, update.removals.as_slice())?;
    }
    Ok(edit)
}
