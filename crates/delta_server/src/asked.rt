ghost use Rattle.std.specs.Prelude.{◌≡◌, ◌==◌};
ghost use Rattle.std.specs.List.{list_any};
ghost use Rattle.sb_model.specs.Names.{threat_code, platform_code, entry_code};
ghost use Rattle.hash_messages.specs.Matches.{has_types};

use sb_model::{EntryType, ListName, PlatformType, ThreatType};

fn has_threat(asked: &[ThreatType], threat: ThreatType) -> bool
    ensures { result ≡ list_any (λ other. threat_code other == threat_code threat) asked.now }
{
    asked.iter().any(|other| other.code() == threat.code())
}

fn has_platform(asked: &[PlatformType], platform: PlatformType) -> bool
    ensures { result ≡ list_any (λ other. platform_code other == platform_code platform) asked.now }
{
    asked.iter().any(|other| other.code() == platform.code())
}

fn has_entry(asked: &[EntryType], entry: EntryType) -> bool
    ensures { result ≡ list_any (λ other. entry_code other == entry_code entry) asked.now }
{
    asked.iter().any(|other| other.code() == entry.code())
}

/// Whether the three types of a list are among those that are asked.
pub fn has_types(
    threats: &[ThreatType],
    platforms: &[PlatformType],
    entries: &[EntryType],
    list: ListName,
) -> bool
    ensures { result ≡ has_types threats.now platforms.now entries.now list }
{
    has_threat(threats, list.threat)
        && has_platform(platforms, list.platform)
        && has_entry(entries, list.entry)
}
