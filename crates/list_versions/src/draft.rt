ghost use Rattle.std.specs.Prelude.{◌≡◌, ◌⊎◌, ◌==◌, ◌||◌, not, ℕ, ◌+◌, ◌*◌, ◌^◌, ◌<◌, ◌≤◌, List, true, [], ◌∷◌, ◌++◌, length, take, All, Option, Some, None, Ok, Err, MatchOption, IfSome, IfNone, IfOk, OnOk, IfErr};
ghost use Rattle.sb_model.specs.Names.{same_name};
ghost use Rattle.sb_model.specs.History.{IsPrefixSize, declares};
ghost use Rattle.sb_model.specs.declared.history.Added.{Added as Entry};
ghost use Rattle.list_versions.specs.Lines.{IsAdded};
ghost use Rattle.list_versions.specs.Journal.{next_line, after_list, at_record, empty_history};
ghost use Rattle.list_versions.specs.Limits.{most_hash_lines, most_changes};
ghost use Rattle.list_versions.specs.Draft.{history_of, kept_of_draft, IsDraft, before_record, within_change, Moves, Waits, Fails, KeepsFront, AreRestored, after_begin, before_next};
ghost use Rattle.list_versions.specs.Split.{EndsWith};

use crate::JournalFault;
use crate::heads::{Head, Header};
use crate::known::KnownName;
use crate::lines::{read_add, read_head_among, read_remove};
use crate::lists::{apply_each, is_declared, limit_of, restore_each, size_of};
use crate::live::Live;
use crate::renewing::Before;
use crate::split::next_line;
use sb_model::{Added, Change, ListName, Row};
use std::alloc::Global;

/// The most lists of a journal, the most changes, and the most hash lines.
const MOST_LISTS: usize = 8;

const MOST_CHANGES: usize = 65_536;

const MOST_HASH_LINES: u64 = 2_097_152;

/// A declared list with its newest full hashes.
#[derive(Debug, Drop)]
pub(crate) struct Listed {
    pub name: ListName,
    pub size: u8,
    pub live: Live,
    /// The same name, with its text.
    pub known: KnownName,
}

/// A history that is being read, of which the records so far have ended.
#[derive(Debug, Drop)]
pub(crate) struct Draft {
    pub sized: bool,
    pub epoch: u64,
    pub lists: Vec<Listed>,
    pub changes: Vec<Change>,
    /// How many hash lines the changes have.
    pub hashes: u64,
}

/// What the first line of a change says, and the size that is declared for its list.
#[derive(Clone, Copy)]
pub(crate) struct Begin {
    pub list: ListName,
    pub size: u8,
    pub to_add: u32,
    pub to_remove: u32,
}

impl Draft {
    /// The history before the first record of a journal with this first line.
    pub fn new(alloc: Global, header: Header) -> Draft
        ensures draft { IsDraft result }
        ensures history { history_of result ≡ empty_history header.epoch }
        ensures sized { result.sized ≡ header.sized }
    {
        Draft {
            sized: header.sized,
            epoch: header.epoch,
            lists: Vec::new(alloc),
            changes: Vec::new(alloc),
            hashes: 0,
        }
    }

    /// The number of the line after the records.
    pub fn next_line(&self) -> u64
        requires { IsDraft self.now }
        ensures value { result ≡ next_line (history_of self.now) }
        ensures small { result < 2 ^ 32 }
    {
        2 + self.lists.len() as u64 + self.changes.len() as u64 + self.hashes
    }

    // Takes one line that adds.
    fn take_add<'a>(
        &self,
        begin: &Begin,
        adds: &mut Row<Added>,
        bytes: &'a [u8],
    ) -> Result<Option<&'a [u8]>, JournalFault>
        requires draft { IsDraft self.now }
        requires more { length adds.old < begin.now.to_add }
        requires some { begin.now.to_add + begin.now.to_remove ≤ 1024 }
        requires size { IsPrefixSize begin.now.size }
        ensures moves { IfOk result (λ found. IfSome found (λ rest.
            Moves (within_change self.now begin.now adds.old []) (within_change self.now begin.now adds.new []) bytes.now rest.now 129)) }
        ensures waits { IfOk result (λ found. IfNone found (Waits self.now (within_change self.now begin.now adds.old []) bytes.now)) }
        ensures front { IfOk result (λ found. IfNone found (length bytes.now ≤ 128)) }
        ensures fault { IfErr result (λ fault. (fault ≡ JournalFault.OutOfMemory)
            ⊎ Fails (within_change self.now begin.now adds.old []) bytes.now fault) }
        ensures length { IfOk result (λ found. IfSome found (λ _. length adds.new ≡ length adds.old + 1)) }
        ensures count { IfOk result (λ found. IfSome found (λ _. self.now.hashes + length adds.new ≤ most_hash_lines)) }
        ensures sizes { IfOk result (λ found. All IsAdded adds.old → All IsAdded adds.new) }
    {
        let line = self.next_line() + adds.len() as u64 + 1;
        let (text, rest) = match next_line(bytes) {
            Ok(Some(halves)) => halves,
            Ok(None) => return Ok(None),
            Err(_) => return Err(JournalFault::Line(line)),
        };
        let Some(added) = read_add(text, self.sized, begin.size) else {
            return Err(JournalFault::Line(line));
        };
        if self.hashes + adds.len() as u64 + 1 > MOST_HASH_LINES {
            return Err(JournalFault::TooMany(line));
        }
        let Ok(()) = adds.push(added) else {
            return Err(JournalFault::OutOfMemory);
        };
        Ok(Some(rest))
    }

    // Takes one line that removes.
    fn take_remove<'a>(
        &self,
        begin: &Begin,
        adds: &[Added],
        removes: &mut Row<[u8; 32]>,
        bytes: &'a [u8],
    ) -> Result<Option<&'a [u8]>, JournalFault>
        requires draft { IsDraft self.now }
        requires added { length adds.now ≡ begin.now.to_add }
        requires more { length removes.old < begin.now.to_remove }
        requires some { begin.now.to_add + begin.now.to_remove ≤ 1024 }
        ensures moves { IfOk result (λ found. IfSome found (λ rest.
            Moves (within_change self.now begin.now adds.now removes.old) (within_change self.now begin.now adds.now removes.new) bytes.now rest.now 129)) }
        ensures waits { IfOk result (λ found. IfNone found (Waits self.now (within_change self.now begin.now adds.now removes.old) bytes.now)) }
        ensures front { IfOk result (λ found. IfNone found (length bytes.now ≤ 128)) }
        ensures fault { IfErr result (λ fault. (fault ≡ JournalFault.OutOfMemory)
            ⊎ Fails (within_change self.now begin.now adds.now removes.old) bytes.now fault) }
        ensures length { IfOk result (λ found. IfSome found (λ _. length removes.new ≡ length removes.old + 1)) }
        ensures count { IfOk result (λ found. IfSome found (λ _. self.now.hashes + length adds.now + length removes.new ≤ most_hash_lines)) }
        ensures sizes { IfOk result (λ found. All (λ hash. length hash ≡ 32) removes.old → All (λ hash. length hash ≡ 32) removes.new) }
    {
        let line = self.next_line() + adds.len() as u64 + removes.len() as u64 + 1;
        let (text, rest) = match next_line(bytes) {
            Ok(Some(halves)) => halves,
            Ok(None) => return Ok(None),
            Err(_) => return Err(JournalFault::Line(line)),
        };
        let Some(hash) = read_remove(text) else {
            return Err(JournalFault::Line(line));
        };
        if self.hashes + adds.len() as u64 + removes.len() as u64 + 1 > MOST_HASH_LINES {
            return Err(JournalFault::TooMany(line));
        }
        let Ok(()) = removes.push(hash) else {
            return Err(JournalFault::OutOfMemory);
        };
        Ok(Some(rest))
    }

    // Takes the lines that add.
    fn read_adds<'a>(
        &self,
        alloc: Global,
        begin: &Begin,
        bytes: &'a [u8],
    ) -> Result<Option<(Row<Added>, &'a [u8])>, JournalFault>
        requires draft { IsDraft self.now }
        requires some { begin.now.to_add + begin.now.to_remove ≤ 1024 }
        requires size { IsPrefixSize begin.now.size }
        ensures moves { IfOk result (λ found. IfSome found (λ taken.
            Moves (within_change self.now begin.now [] []) (within_change self.now begin.now taken.0 []) bytes.now taken.1.now (129 * begin.now.to_add))) }
        ensures waits { IfOk result (λ found. IfNone found (Waits self.now (within_change self.now begin.now [] []) bytes.now)) }
        ensures front { IfOk result (λ found. IfNone found (length bytes.now ≤ 129 * begin.now.to_add + 128)) }
        ensures fault { IfErr result (λ fault. (fault ≡ JournalFault.OutOfMemory)
            ⊎ Fails (within_change self.now begin.now [] []) bytes.now fault) }
        ensures length { IfOk result (λ found. IfSome found (λ taken. length taken.0 ≡ begin.now.to_add)) }
        ensures count { IfOk result (λ found. IfSome found (λ taken. self.now.hashes + length taken.0 ≤ most_hash_lines)) }
        ensures sizes { IfOk result (λ found. IfSome found (λ taken. All IsAdded taken.0)) }
    {
        let Ok(mut adds) = Row::with_capacity(alloc, begin.to_add as usize) else {
            return Err(JournalFault::OutOfMemory);
        };
        let mut rest = bytes;
        while adds.len() < begin.to_add as usize {
            match self.take_add(begin, &mut adds, rest) {
                Ok(Some(next)) => rest = next,
                Ok(None) => return Ok(None),
                Err(fault) => return Err(fault),
            }
        }
        Ok(Some((adds, rest)))
    }

    // Takes the lines that remove.
    fn read_removes<'a>(
        &self,
        alloc: Global,
        begin: &Begin,
        adds: &[Added],
        bytes: &'a [u8],
    ) -> Result<Option<(Row<[u8; 32]>, &'a [u8])>, JournalFault>
        requires draft { IsDraft self.now }
        requires added { length adds.now ≡ begin.now.to_add }
        requires some { begin.now.to_add + begin.now.to_remove ≤ 1024 }
        requires count { self.now.hashes + length adds.now ≤ most_hash_lines }
        ensures moves { IfOk result (λ found. IfSome found (λ taken.
            Moves (within_change self.now begin.now adds.now []) (within_change self.now begin.now adds.now taken.0) bytes.now taken.1.now (129 * begin.now.to_remove))) }
        ensures waits { IfOk result (λ found. IfNone found (Waits self.now (within_change self.now begin.now adds.now []) bytes.now)) }
        ensures front { IfOk result (λ found. IfNone found (length bytes.now ≤ 129 * begin.now.to_remove + 128)) }
        ensures fault { IfErr result (λ fault. (fault ≡ JournalFault.OutOfMemory)
            ⊎ Fails (within_change self.now begin.now adds.now []) bytes.now fault) }
        ensures length { IfOk result (λ found. IfSome found (λ taken. length taken.0 ≡ begin.now.to_remove)) }
        ensures count { IfOk result (λ found. IfSome found (λ taken. self.now.hashes + length adds.now + length taken.0 ≤ most_hash_lines)) }
        ensures sizes { IfOk result (λ found. IfSome found (λ taken. All (λ hash. length hash ≡ 32) taken.0)) }
    {
        let Ok(mut removes) = Row::with_capacity(alloc, begin.to_remove as usize) else {
            return Err(JournalFault::OutOfMemory);
        };
        let mut rest = bytes;
        while removes.len() < begin.to_remove as usize {
            match self.take_remove(begin, adds, &mut removes, rest) {
                Ok(Some(next)) => rest = next,
                Ok(None) => return Ok(None),
                Err(fault) => return Err(fault),
            }
        }
        Ok(Some((removes, rest)))
    }

    // Takes a change that has come whole.
    fn complete(
        &mut self,
        alloc: Global,
        begin: &Begin,
        adds: Row<Added>,
        removes: Row<[u8; 32]>,
    ) -> Result<(), JournalFault>
        requires draft { IsDraft self.old }
        requires added { length adds ≡ begin.now.to_add }
        requires removed { length removes ≡ begin.now.to_remove }
        requires some { begin.now.to_add + begin.now.to_remove ≤ 1024 }
        requires few { length self.old.changes.items < most_changes }
        requires count { self.old.hashes + length adds + length removes ≤ most_hash_lines }
        requires declared { declares (history_of self.old) begin.now.list ≡ true }
        requires adds_well { All IsAdded adds }
        requires removes_well { All (λ hash. length hash ≡ 32) removes }
        ensures draft { OnOk result (IsDraft self.new) }
        ensures ok { OnOk result ((seen bytes : List ℕ) → within_change self.old begin.now adds removes seen bytes ≡ before_record self.new [] bytes) }
        ensures fault { IfErr result (λ fault. (fault ≡ JournalFault.OutOfMemory)
            ⊎ ((seen bytes : List ℕ) → within_change self.old begin.now adds removes seen bytes ≡ Err fault)) }
        ensures front { KeepsFront self.old self.new }
    {
        let count = adds.len() as u64 + removes.len() as u64;
        let line = self.next_line() + count;
        let change = Change {
            list: begin.list,
            adds,
            removes,
        };
        let version = self.changes.len() as u32 + 1;
        let Ok(()) = apply_each(alloc, &mut self.lists, &change, version) else {
            return Err(JournalFault::OutOfMemory);
        };
        if let Some(fault) = limit_of(&self.lists, &change, line) {
            return Err(fault);
        }
        let Ok(()) = self.changes.push(change) else {
            return Err(JournalFault::OutOfMemory);
        };
        self.hashes += count;
        Ok(())
    }

    // Takes a line that declares a list.
    #[tactic(auto, using(crate::proofs::Keeping::keeps_same))]
    fn declare(&mut self, alloc: Global, name: ListName, size: u8) -> Result<(), JournalFault>
        requires draft { IsDraft self.old }
        requires size { IsPrefixSize size }
        ensures draft { OnOk result (IsDraft self.new) }
        ensures ok { OnOk result ((kept : List ℕ) → after_list (kept_of_draft self.old kept) name size ≡ Ok (at_record (kept_of_draft self.new []))) }
        ensures fault { IfErr result (λ fault. (fault ≡ JournalFault.OutOfMemory)
            ⊎ ((kept : List ℕ) → after_list (kept_of_draft self.old kept) name size ≡ Err fault)) }
        ensures front { KeepsFront self.old self.new }
    {
        let line = self.next_line();
        if is_declared(&self.lists, name) {
            return Err(JournalFault::ListTwice(line));
        }
        if self.lists.len() >= MOST_LISTS {
            return Err(JournalFault::TooMany(line));
        }
        let Ok(known) = KnownName::new(alloc, name) else {
            return Err(JournalFault::OutOfMemory);
        };
        let listed = Listed {
            name,
            size,
            live: Live::new(alloc),
            known,
        };
        let Ok(()) = self.lists.push(listed) else {
            return Err(JournalFault::OutOfMemory);
        };
        Ok(())
    }

    // Reads the change that a line begins.
    #[tactic(auto, using(crate::proofs::Keeping::keeps_same))]
    fn read_change<'a>(
        &mut self,
        alloc: Global,
        list: ListName,
        to_add: u32,
        to_remove: u32,
        bytes: &'a [u8],
    ) -> Result<Option<&'a [u8]>, JournalFault>
        requires draft { IsDraft self.old }
        requires some { 1 ≤ to_add + to_remove }
        requires few { to_add + to_remove ≤ 1024 }
        ensures draft { OnOk result (IsDraft self.new) }
        ensures back { IfOk result (λ found. IfSome found (λ rest. EndsWith bytes.now rest.now)) }
        ensures moves { IfOk result (λ found. IfSome found (λ rest.
            Moves (after_begin self.old list to_add to_remove) (before_next self.new) bytes.now rest.now 132096)) }
        ensures waits { IfOk result (λ found. IfNone found (Waits self.old (after_begin self.old list to_add to_remove) bytes.now)) }
        ensures front { IfOk result (λ found. IfNone found (length bytes.now ≤ 132224)) }
        ensures same { IfOk result (λ found. IfNone found (self.new ≡ self.old)) }
        ensures fault { IfErr result (λ fault. (fault ≡ JournalFault.OutOfMemory)
            ⊎ Fails (after_begin self.old list to_add to_remove) bytes.now fault) }
        ensures kept { KeepsFront self.old self.new }
    {
        let line = self.next_line();
        let Some(size) = size_of(&self.lists, list) else {
            return Err(JournalFault::UnknownList(line));
        };
        if self.changes.len() >= MOST_CHANGES {
            return Err(JournalFault::TooMany(line));
        }
        let begin = Begin {
            list,
            size,
            to_add,
            to_remove,
        };
        let (adds, rest) = match self.read_adds(alloc, &begin, bytes) {
            Ok(Some(taken)) => taken,
            Ok(None) => return Ok(None),
            Err(fault) => return Err(fault),
        };
        let (removes, rest) = match self.read_removes(alloc, &begin, adds.as_slice(), rest) {
            Ok(Some(taken)) => taken,
            Ok(None) => return Ok(None),
            Err(fault) => return Err(fault),
        };
        match self.complete(alloc, &begin, adds, removes) {
            Ok(()) => Ok(Some(rest)),
            Err(fault) => Err(fault),
        }
    }

    /// Reads one record, and gives what stands after it; `None` where the record has not ended.
    #[tactic(auto, using(crate::proofs::Keeping::keeps_same))]
    pub fn read_record<'a>(
        &mut self,
        alloc: Global,
        bytes: &'a [u8],
    ) -> Result<Option<&'a [u8]>, JournalFault>
        requires draft { IsDraft self.old }
        ensures draft { OnOk result (IsDraft self.new) }
        ensures moves { IfOk result (λ found. IfSome found (λ rest.
            (more : List ℕ) → before_record self.old [] (bytes.now ++ more) ≡ before_record self.new [] (rest.now ++ more))) }
        ensures back { IfOk result (λ found. IfSome found (λ rest. EndsWith bytes.now rest.now)) }
        ensures shorter { IfOk result (λ found. IfSome found (λ rest. length rest.now < length bytes.now)) }
        ensures waits { IfOk result (λ found. IfNone found (before_record self.old [] bytes.now ≡ Ok (kept_of_draft self.old bytes.now))) }
        ensures front { IfOk result (λ found. IfNone found (length bytes.now ≤ 132608)) }
        ensures same { IfOk result (λ found. IfNone found (self.new ≡ self.old)) }
        ensures fault { IfErr result (λ fault. (fault ≡ JournalFault.OutOfMemory)
            ⊎ ((more : List ℕ) → before_record self.old [] (bytes.now ++ more) ≡ Err fault)) }
        ensures kept { KeepsFront self.old self.new }
    {
        let line = self.next_line();
        let (text, rest) = match next_line(bytes) {
            Ok(Some(halves)) => halves,
            Ok(None) => return Ok(None),
            Err(_) => return Err(JournalFault::Line(line)),
        };
        match read_head_among(&self.lists, text) {
            None => Err(JournalFault::Line(line)),
            Some(Head::List(name, size)) => match self.declare(alloc, name, size) {
                Ok(()) => Ok(Some(rest)),
                Err(fault) => Err(fault),
            },
            Some(Head::Change(list, to_add, to_remove)) => {
                match self.read_change(alloc, list, to_add, to_remove, rest) {
                    Ok(Some(last)) => Ok(Some(last)),
                    Ok(None) => Ok(None),
                    Err(fault) => Err(fault),
                }
            }
        }
    }

    /// Reads all records that have ended, and gives what stands after them.
    pub fn read_records<'a>(
        &mut self,
        alloc: Global,
        bytes: &'a [u8],
    ) -> Result<&'a [u8], JournalFault>
        requires draft { IsDraft self.old }
        ensures draft { OnOk result (IsDraft self.new) }
        ensures rest { IfOk result (λ rest. before_record self.old [] bytes.now ≡ Ok (kept_of_draft self.new rest.now)) }
        ensures moves { IfOk result (λ rest. (more : List ℕ) → before_record self.old [] (bytes.now ++ more) ≡ before_record self.new [] (rest.now ++ more)) }
        ensures few { IfOk result (λ rest. length rest.now ≤ 132608) }
        ensures back { IfOk result (λ rest. EndsWith bytes.now rest.now) }
        ensures fault { IfErr result (λ fault. (fault ≡ JournalFault.OutOfMemory)
            ⊎ ((more : List ℕ) → before_record self.old [] (bytes.now ++ more) ≡ Err fault)) }
        ensures front { KeepsFront self.old self.new }
    {
        let mut rest = bytes;
        loop {
            match self.read_record(alloc, rest) {
                Ok(Some(next)) => rest = next,
                Ok(None) => return Ok(rest),
                Err(fault) => return Err(fault),
            }
        }
    }

    /// Whether there are other lists or changes than before, by how many there are.
    pub fn is_longer(&self, before: Before) -> bool
        ensures { result ≡ (not (before.lists == length self.now.lists.items) || not (before.changes == length self.now.changes.items)) }
    {
        before.lists != self.lists.len() || before.changes != self.changes.len()
    }

    /// Keeps the first lists and changes, and no end above the last of these. The changes have so
    /// many hash lines.
    pub fn cut(&mut self, lists: usize, changes: usize, hashes: u64)
        ensures sized { self.new.sized ≡ self.old.sized }
        ensures epoch { self.new.epoch ≡ self.old.epoch }
        ensures lists { AreRestored (take changes self.old.changes.items) (take lists self.old.lists.items) self.new.lists.items }
        ensures changes { self.new.changes.items ≡ take changes self.old.changes.items }
        ensures hashes { self.new.hashes ≡ hashes }
    {
        self.lists.truncate(lists);
        self.changes.truncate(changes);
        restore_each(&mut self.lists, self.changes.as_slice());
        self.hashes = hashes;
    }
}
