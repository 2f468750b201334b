ghost use Rattle.std.specs.Prelude.{◌≡◌, false, [], ◌∷◌, ◌++◌, OnOk};
ghost use Rattle.hex.specs.Hex.{encode_lower};
ghost use Rattle.list_versions.specs.Written.{change_text, line_of};
ghost use Rattle.generated_load.specs.Generated.{generated_change};

use hash_prefixes::append_hex;
use sb_model::{Bytes, EntryType, ListName, OutOfMemory, PlatformType, ThreatType};

/// The one list.
pub(crate) const LIST: ListName = ListName {
    threat: ThreatType::Malware,
    platform: PlatformType::AnyPlatform,
    entry: EntryType::Url,
};

/// How many bytes of a full hash are published.
pub(crate) const SIZE: u8 = 4;

// Appends a hash line: a mark, and the hash.
fn push_hash(page: &mut Bytes, mark: u8, hash: &[u8; 32]) -> Result<(), OutOfMemory>
    ensures { OnOk result (page.new ≡ page.old ++ mark ∷ line_of (encode_lower hash.now ∷ [])) }
{
    page.push(mark)?;
    append_hex(page, hash)?;
    page.push(b'\n')
}

/// Appends the text of the change at a place, in the first form of journals: the line that adds, and the line that removes where
/// it has one. What is alike in each is written as it is, and not put together.
pub(crate) fn push_change_lines(
    page: &mut Bytes,
    place: u32,
    before: &[u8; 32],
    hash: &[u8; 32],
) -> Result<(), OutOfMemory>
    ensures { OnOk result (page.new ≡ page.old ++ change_text false (generated_change place before.now hash.now)) }
{
    if place % 4 != 0 {
        page.append(b"change MALWARE/ANY_PLATFORM/URL 1 0\n")?;
        return push_hash(page, b'+', hash);
    }
    page.append(b"change MALWARE/ANY_PLATFORM/URL 1 1\n")?;
    push_hash(page, b'+', hash)?;
    push_hash(page, b'-', before)
}
