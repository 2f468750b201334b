ghost use Rattle.std.specs.Prelude.{◌≡◌, ℕ, List, [], drop, Option, Some, IfOk};
ghost use Rattle.std.specs.Option.{option_map};
ghost use Rattle.sb_outside.specs.Outside.{IfTold, with_entry};
ghost use Rattle.memory_objects.specs.Logs.{logged};
ghost use Rattle.memory_objects.specs.Scripts.{DiceInMemory, next_word};

use crate::entries::Log;
use sb_model::{OutOfMemory, Row};
use sb_outside::Dice;
use std::alloc::Global;
use std::collections::VecDeque;
use std::marker::Model;

/// Dice that give the words of a list. After the list the last word stands, which is 0 where the list is
/// empty.
#[derive(Debug, Drop)]
pub struct ScriptDice {
    coming: VecDeque<u32>,
    last: u32,
    given: Log<u32>,
}

impl Model for ScriptDice {
    ghost use Rattle.memory_objects.specs.Scripts.{DiceInMemory};

    ghost Value = { DiceInMemory };

    ghost view = { λ s. record {
      coming = s.coming.items;
      last = s.last;
      given = s.given.0;
      room = s.given.1;
    } };
}

impl ScriptDice {
    /// Dice with these words, which list at most `room` of those that they gave.
    pub fn new(alloc: Global, words: Row<u32>, room: usize) -> Result<Self, OutOfMemory>
        ensures { IfOk result (λ dice.
            dice ≡ record { coming = words; last = 0; given = Some []; room = room }) }
    {
        Ok(ScriptDice {
            coming: VecDeque::from(words.into_vec()),
            last: 0,
            given: Log::new(alloc, room)?,
        })
    }

    /// The words that were given, or `None` where there were more than the dice have room for.
    pub fn given(&self) -> Option<&[u32]>
        ensures { option_map (λ words. words.now) result ≡ self.now.given }
    {
        self.given.entries()
    }
}

/// Takes the next word, or the last one where no more come.
fn next_word(coming: &mut VecDeque<u32>, last: u32) -> u32
    ensures word { result ≡ next_word coming.old.items last }
    ensures rest { coming.new.items ≡ drop 1 coming.old.items }
{
    match coming.pop_front() {
        Some(word) => word,
        None => last,
    }
}

impl Dice for ScriptDice {
    ghost given = { λ s. s.given };

    #[tactic(auto, using(crate::proofs::Logs::told_logged))]
    fn word(&mut self) -> u32
        ensures word { result ≡ next_word self.old.coming self.old.last }
        ensures after { self.new ≡ record self.old {
          coming = drop 1 self.old.coming;
          last = result;
          given = logged self.old.room self.old.given result;
        } }
        ensures told { IfTold self.new.given (with_entry self.old.given result) }
    {
        self.last = next_word(&mut self.coming, self.last);
        self.given.push(self.last);
        self.last
    }
}
