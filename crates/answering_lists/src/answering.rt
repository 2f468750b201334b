ghost use Rattle.std.specs.Prelude.{◌≡◌};
ghost use Rattle.sb_model.specs.History.{declares};
ghost use Rattle.answering_lists.specs.Lists.{answering, for_any_platform, is_answered_for_any};

use list_versions::History;
use sb_model::{ListName, PlatformType};

/// The name of the same threat type and the same entry type, for any platform.
pub fn for_any_platform(name: ListName) -> ListName
    ensures { result ≡ for_any_platform name }
{
    ListName {
        threat: name.threat,
        platform: PlatformType::AnyPlatform,
        entry: name.entry,
    }
}

// Whether a history declares a list.
fn is_declared(history: &History, list: ListName) -> bool
    ensures { result ≡ declares history.now.versions list }
{
    history.newest(list).is_some()
}

/// The list that answers for a name: its own if the history declares it, else the one for any platform with the same threat
/// type and the same entry type if the history declares that, and else none.
pub fn answering_list(history: &History, name: ListName) -> Option<ListName>
    ensures { result ≡ answering history.now.versions name }
{
    if is_declared(history, name) {
        return Some(name);
    }
    let general = for_any_platform(name);
    if is_declared(history, general) {
        return Some(general);
    }
    None
}

/// Whether the list for any platform answers for a name in place of its own.
pub fn is_answered_for_any(history: &History, name: ListName) -> bool
    ensures { result ≡ is_answered_for_any history.now.versions name }
{
    !is_declared(history, name) && is_declared(history, for_any_platform(name))
}
