ghost use Rattle.std.specs.Prelude.{◌≡◌, [], OnOk, OnErr};
ghost use Rattle.gathering.specs.Giving.{first_place, first_due, cut_next, drop_next, place, put, without_place, with_its_phase, without_its_phase, entered, left, IsRow, IsHalfEntered};

use crate::phases::due_at;
use crate::{DoorLimits, Phase};
use sb_model::OutOfMemory;
use std::alloc::Global;
use std::collections::BTreeMap;
use std::marker::Model;

/// A place in a row: first by a moment, and then by the number of the connection.
#[derive(Clone, Copy, Debug, PartialEq, Eq, PartialOrd, Ord)]
pub struct Place {
    pub at: u64,
    pub serial: u64,
}

/// The connections in rows: those that gather by when they began, those that are sent an answer by when a byte of it was last
/// taken, and all that have a time by when it is up. Each is named by its slot.
#[derive(Drop)]
pub struct Rows {
    gathering: BTreeMap<Place, usize>,
    sending: BTreeMap<Place, usize>,
    due: BTreeMap<Place, usize>,
}

impl Model for Rows {
    ghost use Rattle.gathering.specs.Giving.{Standing, IsRow};

    ghost Value = { Standing };

    ghost view = { λ r. record {
      gathering = r.gathering.entries;
      sending = r.sending.entries;
      due = r.due.entries;
    } };

    ghost invariant = { λ r. IsRow r.gathering.entries × IsRow r.sending.entries × IsRow r.due.entries };
}

/// The slot at the first place of a row.
fn first_of(row: &BTreeMap<Place, usize>) -> Option<usize>
    ensures { result ≡ first_place row.now.entries }
{
    match row.first_key_value() {
        Some((_, slot)) => Some(*slot),
        None => None,
    }
}

/// Puts a slot into a row. Where memory is refused, the row stays.
fn put_in(
    row: &mut BTreeMap<Place, usize>,
    at: u64,
    serial: u64,
    slot: usize,
) -> Result<(), OutOfMemory>
    ensures ok { OnOk result (row.new.entries ≡ put row.old.entries (place at serial) slot) }
    ensures err { OnErr result (row.new.entries ≡ row.old.entries) }
    ensures ordered { IsRow row.new.entries }
{
    match row.insert(Place { at, serial }, slot) {
        Ok(_) => Ok(()),
        Err(_) => Err(OutOfMemory),
    }
}

/// Takes what stands at a place out of a row.
fn take_out(row: &mut BTreeMap<Place, usize>, at: u64, serial: u64)
    ensures without { row.new.entries ≡ without_place row.old.entries (place at serial) }
    ensures ordered { IsRow row.new.entries }
{
    row.remove(&Place { at, serial });
}

impl Rows {
    /// No connections.
    pub fn new(alloc: Global) -> Self
        ensures { result ≡ record { gathering = []; sending = []; due = [] } }
    {
        Rows {
            gathering: BTreeMap::new(alloc),
            sending: BTreeMap::new(alloc),
            due: BTreeMap::new(alloc),
        }
    }

    /// Whose answer is cut next where so many bytes of answers wait: none where they are within their sum, else the one of
    /// which no byte was taken for longest.
    pub fn first_to_cut(&self, limits: &DoorLimits, waiting: u64) -> Option<usize>
        ensures { result ≡ cut_next limits.now waiting self.now }
    {
        if waiting <= limits.answer_bytes {
            return None;
        }
        self.first_sending()
    }

    /// Who gives way next to so many bytes that come where so many are gathered: none where all are within their sum, else the
    /// one that has gathered longest.
    pub fn first_to_drop(&self, limits: &DoorLimits, gathered: u64, more: u64) -> Option<usize>
        ensures { result ≡ drop_next limits.now gathered more self.now }
    {
        if gathered.saturating_add(more) <= limits.gathered_bytes {
            return None;
        }
        self.first_gathering()
    }

    /// The connection that has gathered longest.
    pub fn first_gathering(&self) -> Option<usize>
        ensures first { result ≡ first_place self.now.gathering }
        ensures longest { IsRow self.now.gathering }
    {
        first_of(&self.gathering)
    }

    /// The connection whose answer has had no byte taken for longest.
    pub fn first_sending(&self) -> Option<usize>
        ensures first { result ≡ first_place self.now.sending }
        ensures longest { IsRow self.now.sending }
    {
        first_of(&self.sending)
    }

    /// The connection whose time is up first, and when.
    pub fn first_due(&self) -> Option<(u64, usize)>
        ensures { result ≡ first_due self.now.due }
    {
        match self.due.first_key_value() {
            Some((place, slot)) => Some((place.at, *slot)),
            None => None,
        }
    }

    /// Takes a connection out of the row of its phase.
    fn leave_phase(&mut self, phase: Phase, serial: u64)
        ensures { self.new ≡ without_its_phase phase serial self.old }
    {
        match phase {
            Phase::Gathering { since } => take_out(&mut self.gathering, since, serial),
            Phase::Decided { .. } | Phase::InTurn | Phase::Past { .. } => {}
            Phase::Sending { last, .. } => take_out(&mut self.sending, last, serial),
        }
    }

    /// Takes a connection out of its rows.
    pub fn leave(&mut self, limits: &DoorLimits, phase: Phase, serial: u64)
        ensures { self.new ≡ left limits.now phase serial self.old }
    {
        self.leave_phase(phase, serial);
        if let Some(at) = due_at(limits, phase) {
            take_out(&mut self.due, at, serial);
        }
    }

    /// Puts a connection into the row of its phase.
    fn enter_phase(&mut self, phase: Phase, serial: u64, slot: usize) -> Result<(), OutOfMemory>
        ensures ok { OnOk result (self.new ≡ with_its_phase phase serial slot self.old) }
        ensures err { OnErr result (self.new ≡ self.old) }
    {
        match phase {
            Phase::Gathering { since } => put_in(&mut self.gathering, since, serial, slot),
            Phase::Decided { .. } | Phase::InTurn | Phase::Past { .. } => Ok(()),
            Phase::Sending { last, .. } => put_in(&mut self.sending, last, serial, slot),
        }
    }

    /// Puts a connection into its rows. Where memory is refused for the second of them, it stands in the first: it has to
    /// leave.
    pub fn enter(
        &mut self,
        limits: &DoorLimits,
        phase: Phase,
        serial: u64,
        slot: usize,
    ) -> Result<(), OutOfMemory>
        ensures ok { OnOk result (self.new ≡ entered limits.now phase serial slot self.old) }
        ensures err { OnErr result (IsHalfEntered phase serial slot self.old self.new) }
    {
        self.enter_phase(phase, serial, slot)?;
        match due_at(limits, phase) {
            Some(at) => put_in(&mut self.due, at, serial, slot),
            None => Ok(()),
        }
    }
}
