ghost use Rattle.std.specs.Prelude.{◌≡◌, ◌≢◌, ℕ, ◌≤◌, List, [], ◌∷◌, ◌++◌, take, Option, Some, None, IsNone, IsSomeAnd, IfSome, IfOk, OnOk, IsErrOf};
ghost use Rattle.std.specs.Option.{option_map, option_or};
ghost use Rattle.sb_outside.specs.Outside.{Rose, IfTold, raised, with_entry};
ghost use Rattle.sb_outside.specs.Keeping.{IsTorn};
ghost use Rattle.memory_objects.specs.KeptTexts.{KeeperInMemory, failure_at, text_kept_after, kept_next};

use sb_model::{Bytes, OutOfMemory, Row};
use sb_outside::{KeepFault, Keeper};
use std::alloc::Global;
use std::marker::Model;

/// What a keeper in memory keeps after a replacement that failed.
#[derive(Clone, Copy, Debug, PartialEq, Eq, Hash)]
pub enum Remains {
    /// The text before.
    Old,
    /// The new text.
    New,
    /// The first bytes of the new text, or the whole where it has no more.
    Front(usize),
}

/// A call of a keeper in memory that fails.
#[derive(Clone, Copy, Debug, PartialEq, Eq, Hash)]
pub struct KeepFailure {
    /// The number of the call, counted from 1 over `load` and `replace`.
    pub call: u64,
    /// What is kept afterwards, where the call is a `replace`.
    pub remains: Remains,
}

/// A keeper that keeps its text in memory. Of several failures with one number the first counts.
#[derive(Drop)]
pub struct MemoryKeeper {
    alloc: Global,
    kept: Option<Bytes>,
    handed: Row<Bytes>,
    failing: Row<KeepFailure>,
    calls: u64,
    faults: u64,
}

impl Model for MemoryKeeper {
    ghost use Rattle.memory_objects.specs.KeptTexts.{KeeperInMemory};

    ghost Value = { KeeperInMemory };

    ghost view = { λ s. record {
      kept = s.kept;
      handed = s.handed;
      failing = s.failing;
      calls = s.calls;
      faults = s.faults;
    } };
}

impl MemoryKeeper {
    /// A keeper that keeps this text, or nothing.
    pub fn new(alloc: Global, kept: Option<Bytes>, failing: Row<KeepFailure>) -> Self
        ensures { result ≡ record { kept = kept; handed = []; failing = failing; calls = 0; faults = 0 } }
    {
        MemoryKeeper {
            alloc,
            kept,
            handed: Row::new(alloc),
            failing,
            calls: 0,
            faults: 0,
        }
    }

    /// The text that is kept.
    pub fn kept(&self) -> Option<&Bytes>
        ensures { option_map (λ text. text.now) result ≡ self.now.kept }
    {
        self.kept.as_ref()
    }

    /// The texts that were handed in, in order.
    pub fn handed(&self) -> &[Bytes]
        ensures { result.now ≡ self.now.handed }
    {
        self.handed.as_slice()
    }

    /// How many calls failed.
    pub fn faults(&self) -> u64
        ensures { result ≡ self.now.faults }
    {
        self.faults
    }
}

fn failure_at(failures: &[KeepFailure], call: u64) -> Option<Remains>
    ensures { result ≡ failure_at call failures.now }
{
    failures
        .iter()
        .find(|failure| failure.call == call)
        .map(|failure| failure.remains)
}

/// A copy of the text that is kept.
fn copy_of(alloc: Global, kept: &Option<Bytes>) -> Result<Option<Bytes>, OutOfMemory>
    ensures { IfOk result (λ copy. copy ≡ kept.now) }
{
    match kept {
        Some(text) => Ok(Some(Bytes::from_slice(alloc, text.as_slice())?)),
        None => Ok(None),
    }
}

/// A copy of what is kept of the new text, or `None` where the text before stays.
fn new_kept(
    alloc: Global,
    failure: Option<Remains>,
    text: &[u8],
) -> Result<Option<Bytes>, OutOfMemory>
    ensures { IfOk result (λ copy. (before : Option (List ℕ)) →
        option_or copy before ≡ kept_next failure before text.now) }
{
    match failure {
        Some(Remains::Old) => Ok(None),
        Some(Remains::Front(count)) => {
            Ok(Some(Bytes::from_slice(alloc, &text[..count.min(text.len())])?))
        }
        Some(Remains::New) | None => Ok(Some(Bytes::from_slice(alloc, text)?)),
    }
}

impl Keeper for MemoryKeeper {
    ghost faults = { λ s. s.faults };

    ghost kept = { λ s. Some s.kept };

    ghost handed = { λ s. Some s.handed };

    fn load(&mut self, alloc: Global) -> Result<Option<Bytes>, KeepFault>
        ensures unlisted { result ≢ Err KeepFault.Failed →
            (failure_at (raised self.old.calls) self.old.failing ≡ None)
            × (self.new ≡ record self.old { calls = raised self.old.calls }) }
        ensures listed { IsErrOf result KeepFault.Failed →
            (failure_at (raised self.old.calls) self.old.failing ≢ None)
            × (self.new ≡ record self.old { calls = raised self.old.calls; faults = raised self.old.faults }) }

        ensures bytes { IfOk result (λ bytes. IfSome (Some self.old.kept) (λ text. bytes ≡ text)) }
        ensures unchanged { Some self.new.kept ≡ Some self.old.kept }
        ensures handed { Some self.new.handed ≡ Some self.old.handed }
        ensures kept_count { result ≢ Err KeepFault.Failed → self.new.faults ≡ self.old.faults }
        ensures counted { self.old.faults ≤ self.new.faults }
        ensures failed { IsErrOf result KeepFault.Failed → Rose self.old.faults self.new.faults }
    {
        self.calls = self.calls.saturating_add(1);
        if failure_at(self.failing.as_slice(), self.calls).is_some() {
            self.faults = self.faults.saturating_add(1);
            return Err(KeepFault::Failed);
        }
        match copy_of(alloc, &self.kept) {
            Ok(copy) => Ok(copy),
            Err(OutOfMemory) => Err(KeepFault::OutOfMemory),
        }
    }

    #[tactic(auto, using(crate::proofs::Torn::torn_kept))]
    fn replace(&mut self, text: &[u8]) -> Result<(), KeepFault>
        ensures unlisted { OnOk result ((failure_at (raised self.old.calls) self.old.failing ≡ None)
            × (self.new ≡ record self.old {
              kept = Some text.now;
              handed = self.old.handed ++ text.now ∷ [];
              calls = raised self.old.calls;
            })) }
        ensures listed { IsErrOf result KeepFault.Failed →
            IsSomeAnd (failure_at (raised self.old.calls) self.old.failing) (λ remains.
            self.new ≡ record self.old {
              kept = text_kept_after remains self.old.kept text.now;
              handed = self.old.handed ++ text.now ∷ [];
              calls = raised self.old.calls;
              faults = raised self.old.faults;
            }) }
        ensures out_of_memory { IsErrOf result KeepFault.OutOfMemory →
            self.new ≡ record self.old { calls = raised self.old.calls } }

        ensures ok { OnOk result (IfTold (Some self.new.kept) (Some (Some text.now))) }
        ensures torn { IsErrOf result KeepFault.Failed → IsTorn (Some self.old.kept) text.now (Some self.new.kept) }
        ensures refused { IsErrOf result KeepFault.OutOfMemory → Some self.new.kept ≡ Some self.old.kept }
        ensures handed { result ≢ Err KeepFault.OutOfMemory →
            IfTold (Some self.new.handed) (with_entry (Some self.old.handed) text.now) }
        ensures not_handed { IsErrOf result KeepFault.OutOfMemory → Some self.new.handed ≡ Some self.old.handed }
        ensures kept_count { result ≢ Err KeepFault.Failed → self.new.faults ≡ self.old.faults }
        ensures counted { self.old.faults ≤ self.new.faults }
        ensures failed { IsErrOf result KeepFault.Failed → Rose self.old.faults self.new.faults }
    {
        self.calls = self.calls.saturating_add(1);
        let failure = failure_at(self.failing.as_slice(), self.calls);
        let Ok(kept) = new_kept(self.alloc, failure, text) else {
            return Err(KeepFault::OutOfMemory);
        };
        let Ok(copy) = Bytes::from_slice(self.alloc, text) else {
            return Err(KeepFault::OutOfMemory);
        };
        if self.handed.push(copy).is_err() {
            return Err(KeepFault::OutOfMemory);
        }
        self.kept = kept.or(self.kept.take());
        if failure.is_none() {
            return Ok(());
        }
        self.faults = self.faults.saturating_add(1);
        Err(KeepFault::Failed)
    }
}
