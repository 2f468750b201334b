ghost use Rattle.std.specs.Prelude.{◌≡◌, ◌≢◌, Bool, List, [], ◌∷◌, Ok};
ghost use Rattle.sb_model.specs.declared.history.Change.{Change};
ghost use Rattle.list_versions.specs.Journal.{Kept, read_on};
ghost use Rattle.sb_journal.specs.Texts.{records_text};

/// No record is taken behind a record that has not ended: if a journal that was read has bytes of one, a text that begins
/// with a whole record is refused, whatever it says and whatever follows.
pub fn records_wait_for_their_turn()
    ensures { (kept after : Kept) (sized : Bool) (change : Change) (changes : List Change) → read_on kept [] ≡ Ok kept → kept.rest ≢ []
        → read_on kept (records_text sized (change ∷ changes)) ≢ Ok after }
{}
