ghost use Rattle.std.specs.Prelude.{◌≡◌, ℕ, ◌<◌, ◌^◌, true, is_some, List, [], Ok, Some, IfSome};
ghost use Rattle.sb_model.specs.History.{IsPrefixSize, IsWellFormed};
ghost use Rattle.list_versions.specs.Journal.{Kept, declared_size_of, read_on};
ghost use Rattle.list_versions.specs.Written.{with_changes};
ghost use Rattle.sb_words.specs.CommandLine.{Text};
ghost use Rattle.journal_run.specs.declared.command.ChangeLine.{ChangeLine};
ghost use Rattle.journal_run.specs.declared.command.Command.TheVariants.{Change, New};
ghost use Rattle.journal_run.specs.declared.command.NewLine.{NewLine};
ghost use Rattle.journal_run.specs.Changed.{changed_records_text, changed_with};
ghost use Rattle.journal_run.specs.Command.{command_of};
ghost use Rattle.journal_run.specs.Fresh.{fresh_history};
ghost use Rattle.journal_run.specs.Taken.{IsHistoryTold};

use list_versions::{journals_read_as_written, records_are_read_as_their_changes};
use sb_journal::hash_lines_may_follow;

/// What `new` prints is read as the history that it tells: the lists of its words with their size, and no change.
pub fn new_journals_are_told()
    ensures { (words : List Text) (line : NewLine) (epoch : ℕ) → command_of words ≡ Some (New line) → epoch < 2 ^ 64
        → IsHistoryTold (fresh_history epoch line) }
{
    journals_read_as_written();
}

/// What `change` prints is read on behind a journal that declares the list as exactly the changes that the lines of its input
/// say, if it is read at all: it is refused if it passes a limit. With a size the journal has to be of the second form; without
/// one each hash that is put in gets the declared size. The size that words give is one of a prefix.
pub fn changed_records_are_read()
    ensures changes { (kept after : Kept) (line : ChangeLine) (input : List ℕ) (declared : ℕ)
        → declared_size_of kept.versions line.list ≡ Some declared → IsWellFormed kept.versions → kept.rest ≡ []
        → IfSome line.size IsPrefixSize → (is_some line.size ≡ true → kept.sized ≡ true)
        → read_on kept (changed_records_text line input) ≡ Ok after → after ≡ with_changes (changed_with line declared input) kept }
    ensures size { (words : List Text) (line : ChangeLine) → command_of words ≡ Some (Change line) → IfSome line.size IsPrefixSize }
{
    records_are_read_as_their_changes();
    hash_lines_may_follow();
}
