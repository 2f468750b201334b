ghost use Rattle.std.specs.Prelude.{◌≡◌, ◌<◌, ◌^◌, ◌&&◌, ◌||◌, not, ℕ, false, true, List, All, Some};
ghost use Rattle.hex.specs.Hex.{IsBytes};
ghost use Rattle.sb_model.specs.declared.names.ListName.{ListName};
ghost use Rattle.sb_model.specs.Difference.{has_member};
ghost use Rattle.sb_model.specs.History.{History, IsWellFormed, declares, prefixes_at, sizes_at, version_count};
ghost use Rattle.sb_model.specs.Names.{same_name};
ghost use Rattle.sb_model.specs.Prefixes.{IsRising};
ghost use Rattle.list_versions.specs.Journal.{declared_size_of};
ghost use Rattle.list_versions.specs.Written.{HasText, HaveDeclaredSizes, MayFollow};
ghost use Rattle.sb_journal.specs.declared.hash_line.HashLine.{HashLine};
ghost use Rattle.sb_journal.specs.Changes.{sync_changes};
ghost use Rattle.sb_journal.specs.Compacted.{compacted, newest_entries};
ghost use Rattle.sb_journal.specs.Followed.{HasHash, HasPrefixSize, HasSize};
ghost use Rattle.sb_journal.specs.Records.{hashes_put_in, last_lines, leading_lines, newest_hashes, records_of, removes_in, history_with_changes};

use list_versions::full_hashes_stand_once;
use prefix_set::sets_go_by_members;
use sb_model::names_go_by_their_codes;

/// After the records that lead to wanted hashes a list has exactly the hashes that are wanted, whatever it had, and
/// every other list is as it was.
pub fn synced_lists_have_what_is_wanted()
    ensures wanted { (history : History) (list : ListName) (size : ℕ) (wanted : List (List ℕ)) → IsRising wanted
        → newest_hashes (history_with_changes history (sync_changes history list size wanted)) list ≡ wanted }
    ensures others { (history : History) (list other : ListName) (size : ℕ) (wanted : List (List ℕ)) → same_name list other ≡ false
        → sizes_at (history_with_changes history (sync_changes history list size wanted)) other
        (version_count (history_with_changes history (sync_changes history list size wanted)))
        ≡ sizes_at history other (version_count history) }
{
    sets_go_by_members();
}

/// Records of hash lines may follow a history that declares their list: each has 1 to 1,024 of the lines, in order. If the
/// lines put in with the declared size, each hash that the records add has it.
pub fn hash_lines_may_follow()
    ensures follow { (history : History) (list : ListName) (lines : List HashLine) → declares history list ≡ true
        → All HasHash lines → All HasPrefixSize lines → All (MayFollow history) (records_of list lines) }
    ensures sizes { (history : History) (list : ListName) (size : ℕ) (lines : List HashLine)
        → declared_size_of history list ≡ Some size → All (HasSize size) lines → HaveDeclaredSizes history (records_of list lines) }
{}

/// After the records of the last lines of some hashes a list has each hash that these put in, and each that it had and they do
/// not take out. Every other list is as it was.
pub fn changed_lists_have_what_lines_say()
    ensures hashes { (history : History) (list : ListName) (lines : List HashLine) (hash : List ℕ)
        → has_member (newest_hashes (history_with_changes history (records_of list (last_lines lines))) list) hash
        ≡ ((has_member (newest_hashes history list) hash && not (has_member (removes_in (last_lines lines)) hash))
        || has_member (hashes_put_in (last_lines lines)) hash) }
    ensures others { (history : History) (list other : ListName) (lines : List HashLine) → same_name list other ≡ false
        → sizes_at (history_with_changes history (records_of list lines)) other (version_count (history_with_changes history (records_of list lines)))
        ≡ sizes_at history other (version_count history) }
{
    sets_go_by_members();
}

/// The records that lead to wanted hashes may follow the history that they are made for, with sizes and without: each has
/// 1 to 1,024 lines of a declared list, and what they put in has the declared size.
pub fn synced_records_may_follow()
    ensures follow { (history : History) (list : ListName) (size : ℕ) (wanted : List (List ℕ)) → IsWellFormed history
        → declared_size_of history list ≡ Some size → All HasHash (leading_lines size (newest_hashes history list) wanted)
        → All (MayFollow history) (sync_changes history list size wanted) }
    ensures sizes { (history : History) (list : ListName) (size : ℕ) (wanted : List (List ℕ))
        → declared_size_of history list ≡ Some size → HaveDeclaredSizes history (sync_changes history list size wanted) }
{}

/// A list that is told anew has its newest full hashes with their sizes, rising: the same set of full hashes, and the same
/// set of prefixes.
pub fn compacted_lists_are_the_newest()
    ensures entries { (epoch : ℕ) (history : History) (list : ListName) → declares history list ≡ true
        → sizes_at (compacted epoch history) list (version_count (compacted epoch history)) ≡ newest_entries history list }
    ensures hashes { (epoch : ℕ) (history : History) (list : ListName) → declares history list ≡ true
        → newest_hashes (compacted epoch history) list ≡ newest_hashes history list }
    ensures prefixes { (epoch : ℕ) (history : History) (list : ListName) → declares history list ≡ true
        → prefixes_at (compacted epoch history) list (version_count (compacted epoch history))
        ≡ prefixes_at history list (version_count history) }
{
    sets_go_by_members();
    names_go_by_their_codes();
    full_hashes_stand_once();
}

/// A history that is told anew has the text of a journal.
pub fn compacted_histories_have_texts()
    ensures { (epoch : ℕ) (history : History) → epoch < 2 ^ 64 → IsWellFormed history
        → All (λ list. All (λ entry. IsBytes entry.hash) (newest_entries history list.0)) history.declared
        → HasText (compacted epoch history) }
{}
