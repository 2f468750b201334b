ghost use Rattle.std.specs.Prelude.{ℕ, List, Option};
ghost use Rattle.sb_outside.specs.Outside.{IfTold, with_entry};

/// What draws numbers.
pub trait Dice {
    // where the dice tell it: the words that were drawn, in order
    ghost given: { Self → Option (List ℕ) };

    /// The next word.
    fn word(&mut self) -> u32
        ensures { IfTold (given self.new) (with_entry (given self.old) result) };
}
