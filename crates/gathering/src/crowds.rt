ghost use Rattle.std.specs.Prelude.{◌≡◌, [], OnOk, OnErr};
ghost use Rattle.gathering.specs.Addresses.{address_cmp};
ghost use Rattle.gathering.specs.Counts.{count_of, one_more, one_fewer};

use crate::Address;
use sb_model::OutOfMemory;
use std::alloc::Global;
use std::collections::BTreeMap;
use std::marker::Model;

/// How many connections of each address are open. Contracts see it as the list of the addresses with their numbers.
#[derive(Drop)]
pub struct Crowd {
    open: BTreeMap<Address, u64>,
}

impl Model for Crowd {
    ghost use Rattle.std.specs.Prelude.{ℕ, List};
    ghost use Rattle.gathering.specs.declared.addresses.Address.{Address};

    ghost Value = { List (Address × ℕ) };

    ghost view = { λ s. s.open.entries };
}

impl Crowd {
    /// No connections.
    pub fn new(alloc: Global) -> Self
        ensures { result ≡ [] }
    {
        Crowd {
            open: BTreeMap::new(alloc),
        }
    }

    /// How many connections of an address are open.
    pub fn count(&self, address: Address) -> u64
        ensures { result ≡ count_of address_cmp self.now address }
    {
        match self.open.get(&address) {
            Some(count) => *count,
            None => 0,
        }
    }

    /// One more of an address is open. Where memory is refused, all stays.
    pub fn came(&mut self, address: Address) -> Result<(), OutOfMemory>
        ensures ok { OnOk result (self.new ≡ one_more address_cmp self.old address) }
        ensures err { OnErr result (self.new ≡ self.old) }
    {
        let count = self.count(address).saturating_add(1);
        match self.open.insert(address, count) {
            Ok(_) => Ok(()),
            Err(_) => Err(OutOfMemory),
        }
    }

    /// One fewer of an address is open.
    pub fn left(&mut self, address: Address)
        ensures { self.new ≡ one_fewer address_cmp self.old address }
    {
        let count = self.count(address);
        if count <= 1 {
            self.open.remove(&address);
            return;
        }
        match self.open.insert(address, count - 1) {
            Ok(_) | Err(_) => {}
        }
    }
}
