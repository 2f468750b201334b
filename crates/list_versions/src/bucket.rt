ghost use Rattle.std.specs.Prelude.{◌≡◌, ◌+◌, ◌^◌, ◌<◌, ◌≤◌, [], ◌∷◌, ◌++◌, length, cond, IfOk, OnOk};
ghost use Rattle.std.specs.List.{list_any};
ghost use Rattle.std.specs.Str.{bytes_eq};
ghost use Rattle.sb_model.specs.History.{prefix_of};
ghost use Rattle.list_versions.specs.Buckets.{IsTally, without, with_line};

use sb_model::{Added, OutOfMemory};
use std::alloc::Global;
use std::marker::Model;
use std::slice;

/// A line of a list that adds, while its full hash stands: the hash with its size, and the place of
/// the line among those of the list that add.
#[derive(Clone, Copy, Debug)]
pub(crate) struct Standing {
    pub added: Added,
    pub place: u32,
}

/// Lines that stand. Contracts see them as a list. One alone takes no memory of its own.
#[derive(Debug, Drop)]
pub(crate) struct Bucket {
    entries: Entries,
}

#[derive(Debug, Drop)]
pub(crate) enum Entries {
    Nothing,
    One(Standing),
    More(Vec<Standing>),
}

impl Model for Bucket {
    ghost use Rattle.std.specs.Prelude.{List};
    ghost use Rattle.list_versions.specs.declared.bucket.Standing.{Standing as Line};
    ghost use Rattle.list_versions.specs.Buckets.{entries_of};

    ghost Value = { List Line };

    ghost view = { λ bucket. entries_of bucket.entries };
}

/// How many full hashes and how many published bytes came into a bucket, how many went out, and how
/// many full hashes it has then.
#[derive(Clone, Copy, Debug)]
pub(crate) struct Tally {
    pub hashes_in: u64,
    pub hashes_out: u64,
    pub bytes_in: u64,
    pub bytes_out: u64,
    pub hashes: u64,
}

impl Tally {
    // What went out and what was left, where nothing came in.
    fn of_removal(left: u64, hashes: u64, bytes: u64) -> Tally
        ensures { result ≡ record { hashes_in = 0; hashes_out = hashes; bytes_in = 0; bytes_out = bytes; hashes = left } }
    {
        Tally {
            hashes_in: 0,
            hashes_out: hashes,
            bytes_in: 0,
            bytes_out: bytes,
            hashes: left,
        }
    }
}

/// The bytes that are published of a full hash.
pub(crate) fn published(entry: &Added) -> &[u8]
    ensures value { result.now ≡ prefix_of entry.now }
    ensures short { length (prefix_of entry.now) ≤ 32 }
{
    let size = usize::from(entry.size).min(32);
    &entry.hash[..size]
}

/// Whether one of these lines is of a full hash.
pub(crate) fn is_among(entries: &[Standing], hash: &[u8; 32]) -> bool
    ensures { result ≡ list_any (λ line. bytes_eq hash.now line.added.hash) entries.now }
{
    entries.iter().any(|line| *hash == line.added.hash)
}

// Whether one of these full hashes publishes the same bytes.
fn is_published(entries: &[Standing], prefix: &[u8]) -> bool
    ensures { result ≡ list_any (λ line. bytes_eq (prefix_of line.added) prefix.now) entries.now }
{
    entries.iter().any(|line| published(&line.added) == prefix)
}

// How many bytes a prefix has, where none of these full hashes publishes it.
fn further_bytes(entries: &[Standing], prefix: &[u8]) -> u64
    ensures { result ≡ cond (list_any (λ line. bytes_eq (prefix_of line.added) prefix.now) entries.now)
        0 (length prefix.now) }
{
    if is_published(entries, prefix) {
        return 0;
    }
    prefix.len() as u64
}

// Takes a full hash out of a list.
fn take_out(entries: &mut Vec<Standing>, hash: &[u8; 32]) -> Tally
    ensures left { entries.new.items ≡ without entries.old.items hash.now }
    ensures tally { IsTally entries.old.items entries.new.items result }
    ensures none_in { result.hashes_in ≡ 0 }
    ensures nothing_in { result.bytes_in ≡ 0 }
{
    let mut hashes = 0;
    let mut bytes = 0u64;
    let mut i = entries.len();
    'back: while i > 0 {
        i -= 1;
        if entries[i].added.hash == *hash {
            let line = entries.remove(i);
            hashes += 1;
            bytes = bytes.saturating_add(further_bytes(entries, published(&line.added)));
        }
    }
    Tally::of_removal(entries.len() as u64, hashes, bytes)
}

impl Bucket {
    /// No full hash.
    pub fn empty() -> Bucket
        ensures { result ≡ [] }
    {
        Bucket {
            entries: Entries::Nothing,
        }
    }

    pub fn as_slice(&self) -> &[Standing]
        ensures { result.now ≡ self.now }
    {
        match &self.entries {
            Entries::Nothing => &[],
            Entries::One(line) => slice::from_ref(line),
            Entries::More(entries) => entries.as_slice(),
        }
    }

    /// Takes a full hash out.
    pub fn remove(&mut self, hash: &[u8; 32]) -> Tally
        ensures left { self.new ≡ without self.old hash.now }
        ensures tally { IsTally self.old self.new result }
        ensures none_in { result.hashes_in ≡ 0 }
        ensures nothing_in { result.bytes_in ≡ 0 }
    {
        match &mut self.entries {
            Entries::More(entries) => take_out(entries, hash),
            Entries::One(line) if line.added.hash == *hash => {
                let bytes = published(&line.added).len() as u64;
                self.entries = Entries::Nothing;
                Tally::of_removal(0, 1, bytes)
            }
            Entries::One(_) => Tally::of_removal(1, 0, 0),
            Entries::Nothing => Tally::of_removal(0, 0, 0),
        }
    }

    // Puts a line at the end.
    fn push(&mut self, alloc: Global, line: Standing) -> Result<(), OutOfMemory>
        ensures { OnOk result (self.new ≡ self.old ++ line ∷ []) }
    {
        match &mut self.entries {
            Entries::More(entries) => entries.push(line)?,
            Entries::One(first) => {
                let entries = vec![in alloc; *first, line]?;
                self.entries = Entries::More(entries);
            }
            Entries::Nothing => self.entries = Entries::One(line),
        }
        Ok(())
    }

    /// Puts a line in, in place of that which its full hash had.
    pub fn put(&mut self, alloc: Global, line: Standing) -> Result<Tally, OutOfMemory>
        ensures items { OnOk result (self.new ≡ with_line self.old line) }
        ensures tally { IfOk result (IsTally self.old self.new) }
    {
        let gone = self.remove(&line.added.hash);
        let bytes_in = further_bytes(self.as_slice(), published(&line.added));
        self.push(alloc, line)?;
        let hashes = self.as_slice().len() as u64;
        Ok(Tally {
            hashes_in: 1,
            hashes_out: gone.hashes_out,
            bytes_in,
            bytes_out: gone.bytes_out,
            hashes,
        })
    }
}
