ghost use Rattle.std.specs.Prelude.{◌≡◌, ◌⊎◌, ◌≤◌, ◌-◌, List, length, take, drop, Ok, Err, true, false, IsErr, IfOk, IfErr, OnErr, OnOk, MatchResult};
ghost use Rattle.std.specs.Str.{bytes_eq};
ghost use Rattle.sha2.specs.Sha256.{sha256};
ghost use Rattle.update_client.specs.Held.{Held};
ghost use Rattle.client_store.specs.Store.{AreKept, IsStoreOf, IsCutStore};
ghost use Rattle.client_store.specs.Reading.{store_reading, body_reading, reading_in, least_bytes};

use crate::StoreFault;
use crate::fields::Stop;
use crate::format::Format;
use crate::lists::lists_in;
use sha2::{Digest, Sha256};
use std::alloc::Global;
use update_client::ClientLists;

/// How many bytes the digest of a store has.
const DIGEST_BYTES: usize = 32;

/// The least bytes of a store: its first four, its format, the number of lists, and the digest.
const MIN_BYTES: usize = 38;

/// What a store begins with.
pub const STORE_MAGIC: &[u8; 4] = b"SBST";

/// How many bytes a store has at most: eight lists, each with 8,388,608 bytes of 1,048,576 prefixes and their lengths, the
/// longest token, its length, a name, a mark and a count; the first four bytes, the format, the number of lists, and the
/// digest.
pub const LONGEST_STORE: u64 = 75_530_358;

// The format of a text that may be a store.
fn format_in(bytes: &[u8]) -> Result<Format, StoreFault>
    ensures long { OnOk result (least_bytes ≤ length bytes.now) }
    ensures format { IfOk result
        (λ format. store_reading bytes.now ≡ reading_in format bytes.now) }
    ensures fault { IfErr result (λ fault. store_reading bytes.now ≡ Err fault) }
{
    if bytes.len() < MIN_BYTES {
        return Err(StoreFault::Shape(bytes.len() as u64));
    }
    if &bytes[..4] != STORE_MAGIC.as_slice() {
        return Err(StoreFault::Shape(0));
    }
    let number = bytes[4];
    Format::of_number(number).ok_or(StoreFault::Format(number))
}

// A digest as an array.
fn digest_of(bytes: &[u8]) -> [u8; 32]
    requires { length bytes.now ≡ 32 }
    ensures { result ≡ bytes.now }
{
    let mut digest = [0; 32];
    digest.copy_from_slice(bytes);
    digest
}

// Looks at the digest of a body.
fn check_digest(body: &[u8], given: &[u8]) -> Result<(), StoreFault>
    requires { length given.now ≡ 32 }
    ensures ok { OnOk result (bytes_eq (sha256 body.now) given.now ≡ true) }
    ensures differs { OnErr result (bytes_eq (sha256 body.now) given.now ≡ false) }
    ensures fault { IfErr result (λ fault.
        fault ≡ StoreFault.Digest (sha256 body.now) given.now) }
{
    let got = Sha256::digest(body);
    if got.as_slice() == given {
        return Ok(());
    }
    let given = digest_of(given);
    Err(StoreFault::Digest { got, given })
}

// The lists of a body.
fn read_body(alloc: Global, format: Format, body: &[u8]) -> Result<ClientLists, StoreFault>
    requires { 5 ≤ length body.now }
    ensures lists { IfOk result (λ lists. body_reading format body.now ≡ Ok lists) }
    ensures fault { IfErr result (λ fault. (fault ≡ StoreFault.OutOfMemory)
        ⊎ (body_reading format body.now ≡ Err fault)) }
{
    match lists_in(alloc, format, &body[5..]) {
        Ok(lists) => Ok(lists),
        // No field begins in front of the body.
        Err(Stop::Broken(left)) => Err(StoreFault::Shape(body.len().saturating_sub(left) as u64)),
        Err(Stop::OutOfMemory) => Err(StoreFault::OutOfMemory),
    }
}

// The lists of a store.
fn read(alloc: Global, bytes: &[u8]) -> Result<ClientLists, StoreFault>
    ensures lists { IfOk result (λ lists. store_reading bytes.now ≡ Ok lists) }
    ensures fault { IfErr result (λ fault. (fault ≡ StoreFault.OutOfMemory)
        ⊎ (store_reading bytes.now ≡ Err fault)) }
{
    let format = format_in(bytes)?;
    let (body, given) = bytes.split_at(bytes.len() - DIGEST_BYTES);
    check_digest(body, given)?;
    read_body(alloc, format, body)
}

/// Reads a store of either format. Its digest is looked at before its lists are.
pub fn read_store(alloc: Global, bytes: &[u8]) -> Result<ClientLists, StoreFault>
    ensures lists { IfOk result (λ lists. store_reading bytes.now ≡ Ok lists) }
    ensures fault { IfErr result (λ fault. (fault ≡ StoreFault.OutOfMemory)
        ⊎ (store_reading bytes.now ≡ Err fault)) }

    // What is read is the text of the lists, and the text of lists is read.
    ensures found { IfOk result (λ lists. IsStoreOf lists bytes.now) }
    ensures only { (stored : List Held) → AreKept stored → IsStoreOf stored bytes.now
        → MatchResult result (λ lists. lists ≡ stored)
        (λ fault. fault ≡ StoreFault.OutOfMemory) }

    // Where the end of a store is lacking, the rest is not read.
    ensures cut { IsCutStore bytes.now → IsErr result }
{
    read(alloc, bytes)
}
