ghost use Rattle.std.specs.Prelude.{◌≡◌, ◌+◌, ◌<◌, ◌≤◌, [], length, min, IfSome, IfNone, OnOk, OnErr};
ghost use Rattle.gathering.specs.Addresses.{address_cmp};
ghost use Rattle.gathering.specs.Counts.{share_of, with_millis_more, halved, lesser, most_shares, with_count, IsTakenKept, TookLeast};

use crate::Address;
use sb_model::OutOfMemory;
use std::alloc::Global;
use std::collections::BTreeMap;
use std::marker::Model;

/// How many addresses are kept.
const MOST: usize = 4_096;

/// How long the answers of each address took so far, in milliseconds, halved each minute. Contracts see it as the list of
/// the addresses with their milliseconds, of which none is 0.
#[derive(Drop)]
pub struct Shares {
    taken: BTreeMap<Address, u64>,
}

impl Model for Shares {
    ghost use Rattle.std.specs.Prelude.{◌≤◌, length};
    ghost use Rattle.gathering.specs.Counts.{Taken, most_shares};

    ghost Value = { Taken };

    ghost view = { λ s. s.taken.entries };

    ghost invariant = { λ s. length s.taken.entries ≤ most_shares };
}

/// The one that took less: that of the two which was first where both took as much.
fn lesser(least: Option<(Address, u64)>, address: Address, millis: u64) -> (Address, u64)
    ensures { result ≡ lesser least (address, millis) }
{
    match least {
        Some((first, before)) if before <= millis => (first, before),
        _ => (address, millis),
    }
}

/// An address that took least.
fn least_of(taken: &BTreeMap<Address, u64>) -> Option<Address>
    ensures some { IfSome result (λ address. TookLeast taken.now.entries address) }
    ensures none { IfNone result (taken.now.entries ≡ []) }
{
    let mut least = None;
    for (address, millis) in taken {
        least = Some(lesser(least, *address, *millis));
    }
    match least {
        Some((address, _)) => Some(address),
        None => None,
    }
}

/// Notes how long the answers of an address took. Where memory is refused, the list stays.
fn put_in(
    taken: &mut BTreeMap<Address, u64>,
    address: Address,
    millis: u64,
) -> Result<(), OutOfMemory>
    ensures ok { OnOk result (taken.new.entries ≡ with_count address_cmp taken.old.entries address millis) }
    ensures err { OnErr result (taken.new.entries ≡ taken.old.entries) }
    ensures length { length taken.new.entries ≤ length taken.old.entries + 1 }
{
    match taken.insert(address, millis) {
        Ok(_) => Ok(()),
        Err(_) => Err(OutOfMemory),
    }
}

/// Takes one that took least out of a list that is too long.
fn keep_most(taken: &mut BTreeMap<Address, u64>)
    ensures kept { IsTakenKept taken.old.entries taken.new.entries }
    ensures most { length taken.old.entries ≤ most_shares + 1 → length taken.new.entries ≤ most_shares }
{
    if taken.len() <= MOST {
        return;
    }
    if let Some(address) = least_of(taken) {
        taken.remove(&address);
    }
}

impl Shares {
    /// Nobody took anything.
    pub fn new(alloc: Global) -> Self
        ensures { result ≡ [] }
    {
        Shares {
            taken: BTreeMap::new(alloc),
        }
    }

    /// How long the answers of an address took.
    pub fn took(&self, address: Address) -> u64
        ensures { result ≡ share_of self.now address }
    {
        match self.taken.get(&address) {
            Some(millis) => *millis,
            None => 0,
        }
    }

    /// An answer of an address took so long. Where memory is refused, all stays.
    pub fn add(&mut self, address: Address, millis: u64) -> Result<(), OutOfMemory>
        ensures nothing { millis ≡ 0 → self.new ≡ self.old }
        ensures ok { OnOk result (0 < millis → IsTakenKept (with_millis_more self.old address millis) self.new) }
        ensures err { OnErr result (self.new ≡ self.old) }
    {
        if millis == 0 {
            return Ok(());
        }
        let sum = self.took(address).saturating_add(millis);
        put_in(&mut self.taken, address, sum)?;
        keep_most(&mut self.taken);
        Ok(())
    }

    /// So many minutes passed: each has half as much for each of them, at most 63 times.
    pub fn halve(&mut self, minutes: u64)
        ensures { self.new ≡ halved (min minutes 63) self.old }
    {
        let times = minutes.min(63);
        self.taken.retain(|_, millis| {
            *millis >>= times;
            true
        });
        self.taken.retain(|_, millis| *millis > 0);
    }
}
