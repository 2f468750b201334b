ghost use Rattle.std.specs.Prelude.{◌≡◌, ◌==◌, [], nat_le, IfOk, OnOk, OnErr};
ghost use Rattle.std.specs.Ordering.{nat_cmp};
ghost use Rattle.gathering.specs.Counts.{count_of, one_more, one_fewer};

use sb_model::OutOfMemory;
use std::alloc::Global;
use std::collections::BTreeMap;
use std::marker::Model;

/// How many answers hold each text that several share, by its number. Contracts see it as the list of the numbers of the
/// texts with how many hold them.
#[derive(Drop)]
pub struct Texts {
    held: BTreeMap<u64, u64>,
}

impl Model for Texts {
    ghost use Rattle.std.specs.Prelude.{ℕ, List};

    ghost Value = { List (ℕ × ℕ) };

    ghost view = { λ s. s.held.entries };
}

impl Texts {
    /// No texts.
    pub fn new(alloc: Global) -> Self
        ensures { result ≡ [] }
    {
        Texts {
            held: BTreeMap::new(alloc),
        }
    }

    /// How many hold the text of a number.
    pub fn count(&self, number: u64) -> u64
        ensures { result ≡ count_of nat_cmp self.now number }
    {
        match self.held.get(&number) {
            Some(count) => *count,
            None => 0,
        }
    }

    /// One more holds the text of a number. It says whether nobody did before: the text counts from now on. Where memory is
    /// refused, all stays.
    pub fn take(&mut self, number: u64) -> Result<bool, OutOfMemory>
        ensures ok { OnOk result (self.new ≡ one_more nat_cmp self.old number) }
        ensures first { IfOk result (λ first. first ≡ (count_of nat_cmp self.old number == 0)) }
        ensures err { OnErr result (self.new ≡ self.old) }
    {
        let before = self.count(number);
        match self.held.insert(number, before.saturating_add(1)) {
            Ok(_) => Ok(before == 0),
            Err(_) => Err(OutOfMemory),
        }
    }

    /// One fewer holds the text of a number. It says whether nobody does any more: the text counts no longer.
    pub fn let_go(&mut self, number: u64) -> bool
        ensures left { self.new ≡ one_fewer nat_cmp self.old number }
        ensures last { result ≡ nat_le (count_of nat_cmp self.old number) 1 }
    {
        let before = self.count(number);
        if before <= 1 {
            self.held.remove(&number);
            return true;
        }
        match self.held.insert(number, before - 1) {
            Ok(_) | Err(_) => false,
        }
    }
}
