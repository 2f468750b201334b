ghost use Rattle.std.specs.Prelude.{◌≡◌};
ghost use Rattle.sb_model.specs.Names.{platform_with_code, entry_with_code};
ghost use Rattle.proto_messages.specs.Numbers as spec;

use sb_model::{EntryType, ListName, PlatformType, ThreatType};

/// The code of SOCIAL_ENGINEERING.
pub(crate) const SOCIAL: u64 = 2;

/// The number by which browsers ask for it too.
pub(crate) const OTHER_SOCIAL: u64 = 5;

/// The greatest code of a name.
const MOST_CODE: u64 = 8;

/// The threat type that a number names.
#[tactic(auto, unfolding(crate::specs::Numbers::threat_numbered, sb_model::specs::Names::threat_with_code))]
pub(crate) fn threat_numbered(number: u64) -> Option<ThreatType>
    ensures { result ≡ spec.threat_numbered number }
{
    if number == OTHER_SOCIAL {
        return Some(ThreatType::SocialEngineering);
    }
    if number > MOST_CODE {
        return None;
    }
    ThreatType::from_code(number as u8)
}

/// The platform type that a number names.
#[tactic(auto, unfolding(sb_model::specs::Names::platform_with_code))]
pub(crate) fn platform_numbered(number: u64) -> Option<PlatformType>
    ensures { result ≡ platform_with_code number }
{
    if number > MOST_CODE {
        return None;
    }
    PlatformType::from_code(number as u8)
}

/// The entry type that a number names.
#[tactic(auto, unfolding(sb_model::specs::Names::entry_with_code))]
pub(crate) fn entry_numbered(number: u64) -> Option<EntryType>
    ensures { result ≡ entry_with_code number }
{
    if number > MOST_CODE {
        return None;
    }
    EntryType::from_code(number as u8)
}

/// The name of a list that three numbers name.
pub(crate) fn name_numbered(threat: u64, platform: u64, entry: u64) -> Option<ListName>
    ensures { result ≡ spec.name_numbered threat platform entry }
{
    Some(ListName {
        threat: threat_numbered(threat)?,
        platform: platform_numbered(platform)?,
        entry: entry_numbered(entry)?,
    })
}
