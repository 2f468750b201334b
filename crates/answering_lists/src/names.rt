ghost use Rattle.std.specs.Prelude.{◌≡◌, ◌++◌, map, IfOk, OnOk};
ghost use Rattle.sb_model.specs.Names.{entries};
ghost use Rattle.hash_messages.specs.Matches.{all_names};
ghost use Rattle.delta_server.specs.Finding.{name_of_three_types, names_of_threat};
ghost use Rattle.answering_lists.specs.Lists.{answered_names};

use crate::answering::answering_list;
use list_versions::History;
use sb_model::{EntryType, ListName, OutOfMemory, PlatformType, Row, ThreatType};
use std::alloc::Global;

// Appends the names of two types, one with each entry type.
fn push_entries(
    names: &mut Row<ListName>,
    threat: ThreatType,
    platform: PlatformType,
) -> Result<(), OutOfMemory>
    ensures { OnOk result (names.new ≡ names.old ++ map (name_of_three_types threat platform) entries) }
{
    for entry in &EntryType::ALL {
        names.push(ListName {
            threat,
            platform,
            entry: *entry,
        })?;
    }
    Ok(())
}

// Appends the names of a threat type, one with each platform type and entry type.
fn push_platforms(names: &mut Row<ListName>, threat: ThreatType) -> Result<(), OutOfMemory>
    ensures { OnOk result (names.new ≡ names.old ++ names_of_threat threat) }
{
    for platform in &PlatformType::ALL {
        push_entries(names, threat, *platform)?;
    }
    Ok(())
}

// Every name of a list, in the order of names.
fn every_name(alloc: Global) -> Result<Row<ListName>, OutOfMemory>
    ensures { IfOk result (λ names. names ≡ all_names) }
{
    let mut names = Row::new(alloc);
    for threat in &ThreatType::ALL {
        push_platforms(&mut names, *threat)?;
    }
    Ok(names)
}

/// The names for which a list of a history answers, in the order of names: those of the declared lists, and if one of these is for
/// any platform, its name with each other platform type too.
pub fn answered_names(alloc: Global, history: &History) -> Result<Row<ListName>, OutOfMemory>
    ensures { IfOk result (λ names. names ≡ answered_names history.now.versions) }
{
    let every = every_name(alloc)?;
    let mut names = Row::new(alloc);
    for name in every.as_slice() {
        if answering_list(history, *name).is_some() {
            names.push(*name)?;
        }
    }
    Ok(names)
}
