ghost use Rattle.std.specs.Prelude.{◌≡◌, ℕ, false, true, List, [], ◌++◌, All, Ok};
ghost use Rattle.std.specs.List.{flat_map, IsDistinct};
ghost use Rattle.std.specs.Str.{bytes_eq};
ghost use Rattle.sb_model.specs.declared.history.Change.{Change};
ghost use Rattle.sb_model.specs.declared.names.ListName.{ListName};
ghost use Rattle.sb_model.specs.History.{History, full_hashes_at};
ghost use Rattle.list_versions.specs.Journal.{Kept, kept_of, read_on};
ghost use Rattle.list_versions.specs.Written.{HasDeclaredSizes, HasJournal, HasText, HaveDeclaredSizes, MayFollow, change_text, journal_text, wholly, with_changes};

/// However a journal is cut after its first line, reading the front and then the rest comes to what
/// reading the whole does: the same history with the same rest, or the same fault.
pub fn cuts_make_no_difference()
    ensures { (front rest : List ℕ) (kept : Kept) → kept_of front ≡ Ok kept
        → read_on kept rest ≡ kept_of (front ++ rest) }
{}

/// The text of a history is read as this history, with nothing after it: in the second form, and in the first where each hash
/// has the declared size of its list.
pub fn journals_read_as_written()
    ensures sized { (history : History) → HasJournal history → kept_of (journal_text true history) ≡ Ok (wholly true history) }
    ensures plain { (history : History) → HasJournal history → HasDeclaredSizes history
        → kept_of (journal_text false history) ≡ Ok (wholly false history) }
{}

/// Records that are read on behind a journal are the changes that they were written of, and no others, if they are read at all:
/// with sizes behind a journal of the second form, and without if each hash has the declared size of its list. They are refused
/// if they pass a limit.
pub fn records_are_read_as_their_changes()
    ensures sized { (kept after : Kept) (changes : List Change) → kept.rest ≡ [] → kept.sized ≡ true → All (MayFollow kept.versions) changes
        → read_on kept (flat_map (change_text true) changes) ≡ Ok after → after ≡ with_changes changes kept }
    ensures plain { (kept after : Kept) (changes : List Change) → kept.rest ≡ [] → All (MayFollow kept.versions) changes
        → HaveDeclaredSizes kept.versions changes
        → read_on kept (flat_map (change_text false) changes) ≡ Ok after → after ≡ with_changes changes kept }
{}

/// A text that was written of a history, in the second form, is read as this history if it is read at all. It is refused if it
/// passes a limit.
pub fn texts_are_read_as_their_histories()
    ensures { (history : History) (kept : Kept) → HasText history → kept_of (journal_text true history) ≡ Ok kept
        → kept ≡ wholly true history }
{}

/// Each full hash of a version stands there once.
pub fn full_hashes_stand_once()
    ensures { (history : History) (list : ListName) (version : ℕ) → IsDistinct bytes_eq (full_hashes_at history list version) }
{}
