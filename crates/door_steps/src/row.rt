use crate::outcome::Outcome;
use crate::peer::Peer;
use sb_model::OutOfMemory;
use std::alloc::Global;

/// How many peers there may be at once.
pub(crate) const PLACES: u8 = 128;

/// The peers by their numbers.
#[derive(Drop)]
pub(crate) struct Row {
    peers: Vec<Option<Peer>>,
}

impl Row {
    pub(crate) fn new(alloc: Global) -> Result<Row, OutOfMemory> {
        let mut peers = Vec::new(alloc);
        for _ in 0..PLACES {
            peers.push(None)?;
        }
        Ok(Row { peers })
    }

    /// The peer of a number.
    pub(crate) fn get(&mut self, number: u8) -> Option<&mut Peer> {
        self.peers.get_mut(number as usize)?.as_mut()
    }

    /// A peer comes in the place of another, or of none.
    pub(crate) fn set(&mut self, number: u8, peer: Option<Peer>) -> Outcome {
        match self.peers.get_mut(number as usize) {
            Some(place) => {
                *place = peer;
                Outcome::Done
            }
            None => Outcome::Cannot("no such place"),
        }
    }

    /// All leave.
    pub(crate) fn clear(&mut self) {
        for place in self.peers.iter_mut() {
            *place = None;
        }
    }
}
