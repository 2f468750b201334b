ghost use Rattle.std.specs.Prelude.{◌≡◌, ◌++◌, map, filter, OnOk, IfOk};
ghost use Rattle.sb_model.specs.History.{declares};
ghost use Rattle.sb_model.specs.Names.{entries};
ghost use Rattle.hash_messages.specs.Matches.{all_names};
ghost use Rattle.delta_server.specs.Finding.{name_of_three_types, names_of_threat};

use crate::answering::is_declared;
use list_versions::History;
use sb_model::{EntryType, ListName, OutOfMemory, PlatformType, Row, ThreatType};
use std::alloc::Global;

// Appends the names of two types, one with each entry type.
fn push_entries(
    names: &mut Row<ListName>,
    threat: ThreatType,
    platform: PlatformType,
) -> Result<(), OutOfMemory>
    ensures { OnOk result (names.new ≡ names.old ++ map (name_of_three_types threat platform) entries) }
{
    for entry in &EntryType::ALL {
        names.push(ListName {
            threat,
            platform,
            entry: *entry,
        })?;
    }
    Ok(())
}

// Appends the names of a threat type, one with each platform type and entry type.
fn push_platforms(names: &mut Row<ListName>, threat: ThreatType) -> Result<(), OutOfMemory>
    ensures { OnOk result (names.new ≡ names.old ++ names_of_threat threat) }
{
    for platform in &PlatformType::ALL {
        push_entries(names, threat, *platform)?;
    }
    Ok(())
}

/// Every name of a list, in the order of names.
pub(crate) fn every_name(alloc: Global) -> Result<Row<ListName>, OutOfMemory>
    ensures { IfOk result (λ names. names ≡ all_names) }
{
    let mut names = Row::new(alloc);
    for threat in &ThreatType::ALL {
        push_platforms(&mut names, *threat)?;
    }
    Ok(names)
}

/// The declared lists of a history, in the order of names.
pub fn declared_lists(alloc: Global, history: &History) -> Result<Row<ListName>, OutOfMemory>
    ensures { IfOk result (λ lists. lists ≡ filter (declares history.now.versions) all_names) }
{
    let names = every_name(alloc)?;
    let mut lists = Row::new(alloc);
    for name in names.as_slice() {
        if is_declared(history, *name) {
            lists.push(*name)?;
        }
    }
    Ok(lists)
}
