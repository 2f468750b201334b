ghost use Rattle.std.specs.Prelude.{◌≡◌, [], ◌∷◌, IfOk, MatchOption, position};
ghost use Rattle.sb_model.specs.Names.{threat_word, platform_word, entry_word, threat_code, platform_code, entry_code, threat_of, platform_of, entry_of, threat_with_code, platform_with_code, entry_with_code, is_slash, parts_of, name_of_words, text_of, name_of, name_cmp};
ghost use Rattle.sb_model.specs.declared.names.ListName.{ListName};

use crate::{Bytes, OutOfMemory};
use std::alloc::Global;
use std::cmp::Ordering;
use std::error::Error;
use std::fmt;

/// What a list warns of. The variants are ordered by their codes, 1 to 4.
#[derive(Clone, Copy, Debug, PartialEq, Eq, PartialOrd, Ord, Hash)]
pub enum ThreatType {
    Malware = 1,
    SocialEngineering,
    UnwantedSoftware,
    PotentiallyHarmfulApplication,
}

impl ThreatType {
    /// All variants, in the order of their codes.
    pub const ALL: [ThreatType; 4] = [
        ThreatType::Malware,
        ThreatType::SocialEngineering,
        ThreatType::UnwantedSoftware,
        ThreatType::PotentiallyHarmfulApplication,
    ];

    /// The protocol's word, in capitals.
    pub fn word(self) -> &'static str
        ensures { result.now ≡ threat_word self }
    {
        match self {
            ThreatType::Malware => "MALWARE",
            ThreatType::SocialEngineering => "SOCIAL_ENGINEERING",
            ThreatType::UnwantedSoftware => "UNWANTED_SOFTWARE",
            ThreatType::PotentiallyHarmfulApplication => "POTENTIALLY_HARMFUL_APPLICATION",
        }
    }

    /// The type of a word; `None` where no type has it.
    #[tactic(auto, unfolding(crate::specs::Names::threat_of))]
    pub fn from_word(word: &[u8]) -> Option<Self>
        ensures { result ≡ threat_of word.now }
    {
        Self::ALL
            .iter()
            .copied()
            .find(|t| t.word().as_bytes() == word)
    }

    /// The project's own code, from 1 to 4.
    pub fn code(self) -> u8
        ensures { result ≡ threat_code self }
    {
        self as u8
    }

    /// The type of a code; `None` where no type has it.
    #[tactic(auto, unfolding(crate::specs::Names::threat_with_code))]
    pub fn from_code(code: u8) -> Option<Self>
        ensures { result ≡ threat_with_code code }
    {
        Self::ALL.iter().copied().find(|t| t.code() == code)
    }
}

/// The system that a list is for. The variants are ordered by their codes, 1 to 8.
#[derive(Clone, Copy, Debug, PartialEq, Eq, PartialOrd, Ord, Hash)]
pub enum PlatformType {
    Windows = 1,
    Linux,
    Android,
    Osx,
    Ios,
    AnyPlatform,
    AllPlatforms,
    Chrome,
}

impl PlatformType {
    /// All variants, in the order of their codes.
    pub const ALL: [PlatformType; 8] = [
        PlatformType::Windows,
        PlatformType::Linux,
        PlatformType::Android,
        PlatformType::Osx,
        PlatformType::Ios,
        PlatformType::AnyPlatform,
        PlatformType::AllPlatforms,
        PlatformType::Chrome,
    ];

    /// The protocol's word, in capitals.
    pub fn word(self) -> &'static str
        ensures { result.now ≡ platform_word self }
    {
        match self {
            PlatformType::Windows => "WINDOWS",
            PlatformType::Linux => "LINUX",
            PlatformType::Android => "ANDROID",
            PlatformType::Osx => "OSX",
            PlatformType::Ios => "IOS",
            PlatformType::AnyPlatform => "ANY_PLATFORM",
            PlatformType::AllPlatforms => "ALL_PLATFORMS",
            PlatformType::Chrome => "CHROME",
        }
    }

    /// The type of a word; `None` where no type has it.
    #[tactic(auto, unfolding(crate::specs::Names::platform_of))]
    pub fn from_word(word: &[u8]) -> Option<Self>
        ensures { result ≡ platform_of word.now }
    {
        Self::ALL
            .iter()
            .copied()
            .find(|p| p.word().as_bytes() == word)
    }

    /// The project's own code, from 1 to 8.
    pub fn code(self) -> u8
        ensures { result ≡ platform_code self }
    {
        self as u8
    }

    /// The type of a code; `None` where no type has it.
    #[tactic(auto, unfolding(crate::specs::Names::platform_with_code))]
    pub fn from_code(code: u8) -> Option<Self>
        ensures { result ≡ platform_with_code code }
    {
        Self::ALL.iter().copied().find(|t| t.code() == code)
    }
}

/// What the entries of a list stand for. The variants are ordered by their codes, 1 and 2.
#[derive(Clone, Copy, Debug, PartialEq, Eq, PartialOrd, Ord, Hash)]
pub enum EntryType {
    Url = 1,
    Executable,
}

impl EntryType {
    /// All variants, in the order of their codes.
    pub const ALL: [EntryType; 2] = [EntryType::Url, EntryType::Executable];

    /// The protocol's word, in capitals.
    pub fn word(self) -> &'static str
        ensures { result.now ≡ entry_word self }
    {
        match self {
            EntryType::Url => "URL",
            EntryType::Executable => "EXECUTABLE",
        }
    }

    /// The type of a word; `None` where no type has it.
    #[tactic(auto, unfolding(crate::specs::Names::entry_of))]
    pub fn from_word(word: &[u8]) -> Option<Self>
        ensures { result ≡ entry_of word.now }
    {
        Self::ALL
            .iter()
            .copied()
            .find(|e| e.word().as_bytes() == word)
    }

    /// The project's own code, 1 or 2.
    pub fn code(self) -> u8
        ensures { result ≡ entry_code self }
    {
        self as u8
    }

    /// The type of a code; `None` where no type has it.
    #[tactic(auto, unfolding(crate::specs::Names::entry_with_code))]
    pub fn from_code(code: u8) -> Option<Self>
        ensures { result ≡ entry_with_code code }
    {
        Self::ALL.iter().copied().find(|t| t.code() == code)
    }
}

/// The name of a list: its three types. Names are ordered by the three codes, the threat's first.
#[derive(Clone, Copy, Debug, PartialEq, Eq, PartialOrd, Ord, Hash)]
pub struct ListName {
    pub threat: ThreatType,
    pub platform: PlatformType,
    pub entry: EntryType,
}

impl ListName {
    /// The order of two names.
    pub fn compare(self, other: ListName) -> Ordering
        ensures { result ≡ name_cmp self other }
    {
        let threats = self.threat.code().cmp(&other.threat.code());
        let platforms = self.platform.code().cmp(&other.platform.code());
        let entries = self.entry.code().cmp(&other.entry.code());
        threats.then(platforms.then(entries))
    }
}

/// Why a text is no list's name.
#[derive(Clone, Copy, Debug, PartialEq, Eq, Hash)]
pub enum NameFault {
    /// The first word is no threat type.
    UnknownThreat = 1,
    /// The second word is no platform type.
    UnknownPlatform,
    /// The third word is no threat entry type.
    UnknownEntry,
    /// The text has not exactly two slashes. It is looked at first.
    Shape,
}

impl fmt::Display for NameFault {
    fn fmt<W: fmt::Write>(&self, f: &mut fmt::Formatter<W>) -> fmt::Result {
        f.write_str(match self {
            NameFault::UnknownThreat => "unknown threat type",
            NameFault::UnknownPlatform => "unknown platform type",
            NameFault::UnknownEntry => "unknown threat entry type",
            NameFault::Shape => "not three words separated by slashes",
        })
    }
}

impl Error for NameFault {}

/// The place of the first slash.
fn slash_in(text: &[u8]) -> Option<usize>
    ensures { result ≡ position is_slash text.now }
{
    text.iter().position(|byte| *byte == b'/')
}

/// What stands before the first slash, and after it; `None` where there is no slash.
fn split_at_slash(text: &[u8]) -> Option<(&[u8], &[u8])>
    ensures { MatchOption result (parts_of text.now ≡ text.now ∷ [])
        (λ halves. parts_of text.now ≡ halves.0.now ∷ parts_of halves.1.now) }
{
    let Some(slash) = slash_in(text) else {
        return None;
    };
    Some((&text[..slash], &text[slash + 1..]))
}

/// The three parts of a text that has exactly two slashes.
fn three_parts(text: &[u8]) -> Option<(&[u8], &[u8], &[u8])>
    ensures { MatchOption result (name_of text.now ≡ Err NameFault.Shape)
        (λ parts. parts_of text.now ≡ parts.0.now ∷ parts.1.now ∷ parts.2.now ∷ []) }
{
    let Some((threat, rest)) = split_at_slash(text) else {
        return None;
    };
    let Some((platform, entry)) = split_at_slash(rest) else {
        return None;
    };
    if slash_in(entry).is_some() {
        return None;
    }
    Some((threat, platform, entry))
}

/// The name of three words.
fn name_of_three(threat: &[u8], platform: &[u8], entry: &[u8]) -> Result<ListName, NameFault>
    ensures { result ≡ name_of_words threat.now platform.now entry.now }
{
    let Some(threat) = ThreatType::from_word(threat) else {
        return Err(NameFault::UnknownThreat);
    };
    let Some(platform) = PlatformType::from_word(platform) else {
        return Err(NameFault::UnknownPlatform);
    };
    let Some(entry) = EntryType::from_word(entry) else {
        return Err(NameFault::UnknownEntry);
    };
    Ok(ListName {
        threat,
        platform,
        entry,
    })
}

/// Reads a list's name, `THREAT/PLATFORM/ENTRY`. `Shape` comes first, and then the words from the left.
pub fn read_list_name(text: &[u8]) -> Result<ListName, NameFault>
    ensures exact { result ≡ name_of text.now }
    ensures found { IfOk result (λ name. text.now ≡ text_of name) }
    ensures only { (name : ListName) → text.now ≡ text_of name → result ≡ Ok name }
{
    let Some((threat, platform, entry)) = three_parts(text) else {
        return Err(NameFault::Shape);
    };
    name_of_three(threat, platform, entry)
}

/// The text of a list's name, as `read_list_name` reads it.
pub fn write_list_name(alloc: Global, name: ListName) -> Result<Bytes, OutOfMemory>
    ensures value { IfOk result (λ text. text ≡ text_of name) }
    ensures read_again { IfOk result (λ text. name_of text ≡ Ok name) }
{
    let mut text = Bytes::new(alloc);
    text.append(name.threat.word().as_bytes())?;
    text.push(b'/')?;
    text.append(name.platform.word().as_bytes())?;
    text.push(b'/')?;
    text.append(name.entry.word().as_bytes())?;
    Ok(text)
}
