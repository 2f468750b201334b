ghost use Rattle.std.specs.Prelude.{◌≡◌, ◌⊎◌, ◌≤◌, ◌%◌, ◌∷◌, All, length, Ok, Err, Some, None, IfOk, IfErr};
ghost use Rattle.serde_json.specs.View.{view, items_view};
ghost use Rattle.sb_json.specs.Values.{object_of};
ghost use Rattle.update_messages.specs.Messages.{IsAddition, IsRemoval, IsRiceSet, IsRawSet, most_i32};
ghost use Rattle.update_messages.specs.ResponseRows as row;
ghost use Rattle.sb_members.specs.Lists.{ReadsList, first, fault_of_list};
ghost use Rattle.update_messages.specs.Reading.{ReadsAddition, ReadsRemoval, ReadsIndex, ReadsRaw, ReadsRice};
ghost use Rattle.update_messages.specs.Faults.{faults_of_rice, faults_of_raw_hashes, fault_of_addition, fault_of_index, fault_of_removal};

use crate::rows::i32_or_zero;
use crate::{Additions, Compression, Removals};
use rice_coding::RiceRecord;
use sb_json::{Field, FieldFault, object, string, whole, whole_item};
use sb_members::{ReadItem, bytes_or_empty, check_object, read_list, whole_or_zero};
use sb_model::Bytes;
use serde_json::Value;
use std::alloc::Global;

/// The greatest number of 64 bits with a sign.
const MOST_I64: u64 = 9_223_372_036_854_775_807;

/// The greatest number of 32 bits with a sign.
const MOST_I32: u64 = 2_147_483_647;

/// The compression of a set.
fn compression(set: &Value) -> Result<Compression, FieldFault>
    ensures { result ≡ row.compression_row (view set.now) }
{
    let word = string(set, Field::CompressionType)?;
    if word == "RAW" {
        Ok(Compression::Raw)
    } else if word == "RICE" {
        Ok(Compression::Rice)
    } else {
        Err(FieldFault::Name(Field::CompressionType))
    }
}

/// The Rice record in a field of a set.
fn rice_record(alloc: Global, set: &Value, name: Field) -> Result<RiceRecord, FieldFault>
    ensures ok { IfOk result (λ rice. ReadsRice (object_of name (view set.now)) rice) }
    ensures range { IfOk result IsRiceSet }
    ensures clean { IfOk result (λ rice. first (faults_of_rice (object_of name (view set.now))) ≡ None) }
    ensures err { IfErr result (λ fault. (fault ≡ FieldFault.OutOfMemory)
        ⊎ (first (faults_of_rice (object_of name (view set.now))) ≡ Some fault)) }
{
    let holder = object(set, name)?;
    let first = whole_or_zero(holder, Field::FirstValue, MOST_I64)?;
    let parameter = i32_or_zero(holder, Field::RiceParameter)?;
    let count = i32_or_zero(holder, Field::NumEntries)?;
    let coded = bytes_or_empty(alloc, holder, Field::EncodedData)?;
    Ok(RiceRecord {
        first,
        parameter,
        count,
        coded,
    })
}

/// The size of the prefixes of a set that is not compressed.
fn prefix_size(hashes: &Value) -> Result<u8, FieldFault>
    ensures value { result ≡ row.prefix_size_row (view hashes.now) }
    ensures low { IfOk result (λ size. 4 ≤ size) }
    ensures high { IfOk result (λ size. size ≤ 32) }
{
    let size = whole(hashes, Field::PrefixSize, 32)?;
    if size < 4 {
        return Err(FieldFault::Number(Field::PrefixSize));
    }
    Ok(size as u8)
}

/// The bytes of its prefixes, which are whole.
fn raw_bytes(alloc: Global, size: u8, hashes: &Value) -> Result<Bytes, FieldFault>
    requires { 4 ≤ size }
    ensures ok { IfOk result (λ bytes. row.raw_bytes_row size (view hashes.now) ≡ Ok bytes) }
    ensures aligned { IfOk result (λ bytes. length bytes % size ≡ 0) }
    ensures err { IfErr result (λ fault. (fault ≡ FieldFault.OutOfMemory)
        ⊎ (row.raw_bytes_row size (view hashes.now) ≡ Err fault)) }
{
    let bytes = bytes_or_empty(alloc, hashes, Field::RawHashBytes)?;
    if bytes.len() % usize::from(size) != 0 {
        return Err(FieldFault::Size(Field::RawHashBytes, bytes.len() as u64));
    }
    Ok(bytes)
}

/// The size and the bytes of a set of additions that is not compressed.
fn raw_hashes(alloc: Global, set: &Value) -> Result<(u8, Bytes), FieldFault>
    ensures ok { IfOk result (λ raw. ReadsRaw (row.raw_hashes_row (view set.now)) raw.0 raw.1) }
    ensures range { IfOk result (λ raw. IsRawSet raw.0 raw.1) }
    ensures clean { IfOk result (λ _. first (faults_of_raw_hashes (row.raw_hashes_row (view set.now))) ≡ None) }
    ensures err { IfErr result (λ fault. (fault ≡ FieldFault.OutOfMemory)
        ⊎ (first (faults_of_raw_hashes (row.raw_hashes_row (view set.now))) ≡ Some fault)) }
{
    let hashes = object(set, Field::RawHashes)?;
    let size = prefix_size(hashes)?;
    let bytes = raw_bytes(alloc, size, hashes)?;
    Ok((size, bytes))
}

/// A set of additions.
fn addition(alloc: Global, set: &Value) -> Result<Additions, FieldFault>
    ensures ok { IfOk result (λ found. ReadsAddition (view set.now) found) }
    ensures range { IfOk result IsAddition }
    ensures clean { IfOk result (λ _. fault_of_addition (view set.now) ≡ None) }
    ensures err { IfErr result (λ fault. (fault ≡ FieldFault.OutOfMemory)
        ⊎ (fault_of_addition (view set.now) ≡ Some fault)) }
{
    check_object(set, Field::Additions)?;
    match compression(set)? {
        Compression::Raw => {
            let (size, bytes) = raw_hashes(alloc, set)?;
            Ok(Additions::Raw { size, bytes })
        }
        Compression::Rice => {
            let rice = rice_record(alloc, set, Field::RiceHashes)?;
            Ok(Additions::Rice(rice))
        }
    }
}

/// The sets of additions of an update.
pub(crate) struct AdditionSets;

impl ReadItem for AdditionSets {
    type Found = Additions;

    ghost Reads = { ReadsAddition };

    ghost Keeps = { IsAddition };

    ghost fault = { fault_of_addition };

    fn read_item(alloc: Global, item: &Value) -> Result<Additions, FieldFault> {
        addition(alloc, item)
    }
}

/// One place of a set of removals.
fn index(item: &Value) -> Result<u32, FieldFault>
    ensures value { result ≡ row.index_row (view item.now) }
    ensures limit { IfOk result (λ place. place ≤ most_i32) }
{
    Ok(whole_item(item, Field::Indices, MOST_I32)? as u32)
}

/// The places of a set of removals that is not compressed.
struct Places;

impl ReadItem for Places {
    type Found = u32;

    ghost Reads = { ReadsIndex };

    ghost Keeps = { λ place. place ≤ most_i32 };

    ghost fault = { fault_of_index };

    fn read_item(_alloc: Global, item: &Value) -> Result<u32, FieldFault> {
        index(item)
    }
}

/// A set of removals.
fn removal(alloc: Global, set: &Value) -> Result<Removals, FieldFault>
    ensures ok { IfOk result (λ found. ReadsRemoval (view set.now) found) }
    ensures range { IfOk result IsRemoval }
    ensures clean { IfOk result (λ _. fault_of_removal (view set.now) ≡ None) }
    ensures err { IfErr result (λ fault. (fault ≡ FieldFault.OutOfMemory)
        ⊎ (fault_of_removal (view set.now) ≡ Some fault)) }
{
    check_object(set, Field::Removals)?;
    match compression(set)? {
        Compression::Raw => {
            let raw = object(set, Field::RawIndices)?;
            let places = read_list::<Places>(alloc, raw, Field::Indices)?;
            Ok(Removals::Raw(places))
        }
        Compression::Rice => {
            let rice = rice_record(alloc, set, Field::RiceIndices)?;
            Ok(Removals::Rice(rice))
        }
    }
}

/// The sets of removals of an update.
pub(crate) struct RemovalSets;

impl ReadItem for RemovalSets {
    type Found = Removals;

    ghost Reads = { ReadsRemoval };

    ghost Keeps = { IsRemoval };

    ghost fault = { fault_of_removal };

    fn read_item(alloc: Global, item: &Value) -> Result<Removals, FieldFault> {
        removal(alloc, item)
    }
}
